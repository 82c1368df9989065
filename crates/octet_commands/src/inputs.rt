//! Takes the files of a request from the desk and reads them, or refuses where that fails.
ghost use Rattle.std.specs.Prelude.{◌≡◌, ◌≤◌, length, IfOk};
ghost use Rattle.octet_log.specs.v2.Pieces.{marks_in};
ghost use Rattle.octet_log.specs.declared.limits.TheConstants.{MAX_MARKS};
ghost use Rattle.octet_commands.specs.Request.{name_in};
ghost use Rattle.octet_commands.specs.Checked.{IsFittingTaken};
ghost use Rattle.octet_commands.specs.Inputs.{Comes, Ends, IsTaken, IsParsed, IsDecoded, IsScriptRead, IsLogRead, IsChosen, IsScriptChosen, IsPairRead, TakesOne, TakesBoth, WasRefused};
ghost use Rattle.octet_commands.specs.Profile.{object_named};

use crate::refusal::{
    Refused, log_refused, no_such_object, read_failed, script_refused, too_long, wrong_script,
};
use octet_base::{Desk, DeskFault};
use octet_log::{Loaded, LogFault, decode};
use octet_model::{List, MAX_LOG_FILE, MAX_SCRIPT_FILE, Script};
use octet_replay::fit;
use octet_script::{ScriptFault, parse};
use std::alloc::Global;

/// A script and the text that it was read from.
#[derive(Drop)]
pub struct Source {
    pub text: List<u8>,
    pub script: Script,
}

/// A script, the place of the object that is named, and a log.
#[derive(Drop)]
pub struct Pair {
    pub source: Source,
    pub wanted: Option<usize>,
    pub loaded: Loaded,
}

/// Takes the bytes of a file that has at most `limit`.
fn take_file<D: Desk>(
    alloc: Global,
    desk: &mut D,
    name: &str,
    limit: u32,
) -> Result<List<u8>, Refused>
    ensures ends { Ends (IsTaken name.now limit (D.state desk.old).contents) (D.state desk.old).take_faults result (D.state desk.new).take_faults }
    ensures calls { TakesOne name.now limit (WasRefused result) (D.state desk.old) (D.state desk.new) }
{
    match desk.take(alloc, name, limit) {
        Ok(bytes) => Ok(List::from_vec(bytes)),
        Err(DeskFault::OutOfMemory) => Err(Refused::OutOfMemory),
        Err(DeskFault::TooLong) => Err(Refused::Because(too_long(alloc, name, u64::from(limit))?)),
        Err(DeskFault::Failed) => Err(Refused::Because(read_failed(alloc)?)),
        Err(DeskFault::Absent) => Err(Refused::Because(read_failed(alloc)?)),
    }
}

fn parse_text(alloc: Global, text: List<u8>) -> Result<Source, Refused>
    requires { length text ≤ MAX_SCRIPT_FILE }
    ensures { Comes (IsParsed text) result }
{
    match parse(alloc, text.as_slice()) {
        Ok(script) => Ok(Source { text, script }),
        Err(ScriptFault::OutOfMemory) => Err(Refused::OutOfMemory),
        Err(ScriptFault::Refused { line, cause }) => {
            Err(Refused::Because(script_refused(alloc, line, cause)?))
        }
    }
}

fn decode_bytes(alloc: Global, bytes: &[u8]) -> Result<Loaded, Refused>
    requires { length bytes.now ≤ MAX_LOG_FILE }
    ensures comes { Comes (IsDecoded bytes.now) result }
    ensures few { IfOk result (λ loaded. marks_in loaded.log.threads ≤ MAX_MARKS) }
{
    match decode(alloc, bytes) {
        Ok(loaded) => Ok(loaded),
        Err(LogFault::OutOfMemory) => Err(Refused::OutOfMemory),
        Err(LogFault::Refused { cause }) => Err(Refused::Because(log_refused(alloc, cause)?)),
    }
}

/// Takes a file and reads it as a script.
pub fn read_script<D: Desk>(alloc: Global, desk: &mut D, name: &str) -> Result<Source, Refused>
    ensures ends { Ends (IsScriptRead name.now (D.state desk.old).contents) (D.state desk.old).take_faults result (D.state desk.new).take_faults }
    ensures calls { TakesOne name.now MAX_SCRIPT_FILE (WasRefused result) (D.state desk.old) (D.state desk.new) }
{
    let text = take_file(alloc, desk, name, MAX_SCRIPT_FILE)?;
    parse_text(alloc, text)
}

/// Takes a file and reads it as a log.
pub(crate) fn read_log<D: Desk>(alloc: Global, desk: &mut D, name: &str) -> Result<Loaded, Refused>
    ensures ends { Ends (IsLogRead name.now (D.state desk.old).contents) (D.state desk.old).take_faults result (D.state desk.new).take_faults }
    ensures calls { TakesOne name.now MAX_LOG_FILE (WasRefused result) (D.state desk.old) (D.state desk.new) }
    ensures few { IfOk result (λ loaded. marks_in loaded.log.threads ≤ MAX_MARKS) }
{
    let bytes = take_file(alloc, desk, name, MAX_LOG_FILE)?;
    decode_bytes(alloc, bytes.as_slice())
}

/// The place of the object that the name asks for. Without a name none is asked for.
fn choose(alloc: Global, script: &Script, name: Option<&str>) -> Result<Option<usize>, Refused>
    ensures { Comes (IsChosen script.now (name_in name.entry)) result }
{
    let Some(name) = name else {
        return Ok(None);
    };
    match object_named(script, name.as_bytes()) {
        Some(place) => Ok(Some(place)),
        None => Err(Refused::Because(no_such_object(alloc)?)),
    }
}

fn object_named(script: &Script, name: &[u8]) -> Option<usize>
    ensures { result ≡ object_named script.now name.now }
{
    script
        .objects
        .as_slice()
        .iter()
        .position(|object| name == object.name.as_bytes())
}

/// Takes a script's file, reads it, and finds the object that is named in it.
pub(crate) fn read_chosen<D: Desk>(
    alloc: Global,
    desk: &mut D,
    script_name: &str,
    object_name: Option<&str>,
) -> Result<(Source, Option<usize>), Refused>
    ensures ends { Ends (IsScriptChosen script_name.now (name_in object_name.entry) (D.state desk.old).contents) (D.state desk.old).take_faults result (D.state desk.new).take_faults }
    ensures calls { TakesOne script_name.now MAX_SCRIPT_FILE (WasRefused result) (D.state desk.old) (D.state desk.new) }
{
    let source = read_script(alloc, desk, script_name)?;
    let wanted = choose(alloc, &source.script, object_name)?;
    Ok((source, wanted))
}

/// Takes and reads a script and then a log.
fn read_pair<D: Desk>(
    alloc: Global,
    desk: &mut D,
    script_name: &str,
    log_name: &str,
    object_name: Option<&str>,
) -> Result<Pair, Refused>
    ensures ends { Ends (IsPairRead script_name.now log_name.now (name_in object_name.entry) (D.state desk.old).contents) (D.state desk.old).take_faults result (D.state desk.new).take_faults }
    ensures calls { TakesBoth script_name.now log_name.now (name_in object_name.entry) (WasRefused result) (D.state desk.old) (D.state desk.new) }
    ensures few { IfOk result (λ pair. marks_in pair.loaded.log.threads ≤ MAX_MARKS) }
{
    let (source, wanted) = read_chosen(alloc, desk, script_name, object_name)?;
    let loaded = read_log(alloc, desk, log_name)?;
    Ok(Pair {
        source,
        wanted,
        loaded,
    })
}

/// Takes and reads a script and then a log, which is of that script or has no digest.
pub fn read_fitting<D: Desk>(
    alloc: Global,
    desk: &mut D,
    script_name: &str,
    log_name: &str,
    object_name: Option<&str>,
) -> Result<Pair, Refused>
    ensures taken { IsFittingTaken script_name.now log_name.now (name_in object_name.entry) (D.state desk.old) result (D.state desk.new) }
    ensures few { IfOk result (λ pair. marks_in pair.loaded.log.threads ≤ MAX_MARKS) }
{
    let pair = read_pair(alloc, desk, script_name, log_name, object_name)?;
    match fit(pair.source.text.as_slice(), &pair.loaded) {
        Ok(()) => Ok(pair),
        Err(fault) => Err(Refused::Because(wrong_script(alloc, &fault)?)),
    }
}
