//! `run SCRIPT LOG`: the log is written while the threads run.
ghost use Rattle.std.specs.Prelude.{◌≡◌, ◌≤◌, ◌∷◌, [], None, Some, IsSome};
ghost use Rattle.octet_model.specs.declared.limits.TheConstants.{MAX_THREADS};
ghost use Rattle.octet_model.specs.Orders.{IsFaithful};
ghost use Rattle.octet_model.specs.Texts.{outcome_text};
ghost use Rattle.octet_log.specs.v2.Pieces.{head_bytes, tail_bytes};
ghost use Rattle.octet_commands.specs.declared.request.Request.TheVariants.{Run};
ghost use Rattle.octet_commands.specs.declared.request.Way.TheVariants.{AsTheyCome};
ghost use Rattle.octet_commands.specs.Delivery.{Add, Finish, Say};
ghost use Rattle.octet_top.specs.Live.{IsWrittenLive, MakesSome, MakesUnless};
ghost use Rattle.octet_top.specs.Serving.{IsServed};

use octet_base::{Desk, DeskFault};
use octet_commands::{Source, Status, code_given, deliver, read_script};
use octet_log::{Digest, digest, head, tail};
use octet_model::{Log, Recorded, Script, outcome_text};
use octet_threads::{HeapGate, Live, run_live};
use std::alloc::Global;
use std::sync::Wait;
use std::thread::Threads;

/// Takes and reads the script, runs it and writes its log meanwhile, and says the outcome.
pub(crate) fn serve_live<R: Threads + Wait + Sync, D: Desk, G: HeapGate>(
    rt: &R,
    alloc: Global,
    desk: &mut D,
    gate: &G,
    script: &str,
    log: &str,
) -> u8
    requires { (D.state desk.old).begun ≡ None }
    ensures { IsServed (Some (Run AsTheyCome script.now log.now)) (D.state desk.old) (D.state desk.new) result }
{
    match read_script(alloc, desk, script) {
        Ok(source) => {
            let written = write_live(rt, alloc, desk, gate, &source, log);
            code_given(Status::Done, written)
        }
        Err(refused) => deliver(alloc, desk, Err(refused)),
    }
}

/// The log's file is begun, the head is added, the threads run while their marks are added, and then
/// comes the rest.
fn write_live<R: Threads + Wait + Sync, D: Desk, G: HeapGate>(
    rt: &R,
    alloc: Global,
    desk: &mut D,
    gate: &G,
    source: &Source,
    log_name: &str,
) -> Result<(), DeskFault>
    requires { (D.state desk.old).begun ≡ None }
    ensures { IsWrittenLive source.now log_name.now (D.state desk.old) result (D.state desk.new) }
{
    if let Err(fault) = desk.begin(alloc, log_name) {
        return Err(fault);
    }
    let threads = source.script.thread_count();
    let digest = digest(source.text.as_slice());
    if let Err(fault) = add_head(alloc, desk, threads, &digest) {
        return Err(fault);
    }
    match run_live(rt, alloc, &source.script, gate, desk) {
        Ok(live) => end_live(alloc, desk, source, &live),
        Err(_) => Err(DeskFault::OutOfMemory),
    }
}

fn add_head<D: Desk>(
    alloc: Global,
    desk: &mut D,
    threads: u8,
    digest: &Digest,
) -> Result<(), DeskFault>
    requires threads { (1 ≤ threads) × (threads ≤ MAX_THREADS) }
    requires begun { IsSome (D.state desk.old).begun }
    ensures added { MakesSome (Add (head_bytes threads digest.now.bytes) ∷ []) (D.state desk.old) result (D.state desk.new) }
    ensures begun { (D.state desk.new).begun ≡ (D.state desk.old).begun }
{
    let Ok(bytes) = head(alloc, threads, digest) else {
        return Err(DeskFault::OutOfMemory);
    };
    desk.add(alloc, bytes.as_slice())
}

fn add_tail<D: Desk>(alloc: Global, desk: &mut D, log: &Log) -> Result<(), DeskFault>
    requires begun { IsSome (D.state desk.old).begun }
    ensures added { MakesSome (Add (tail_bytes log.now.threads) ∷ []) (D.state desk.old) result (D.state desk.new) }
    ensures begun { (D.state desk.new).begun ≡ (D.state desk.old).begun }
{
    let Ok(bytes) = tail(alloc, log) else {
        return Err(DeskFault::OutOfMemory);
    };
    desk.add(alloc, bytes.as_slice())
}

/// Where all marks were added, what is left is written and said.
fn end_live<D: Desk>(
    alloc: Global,
    desk: &mut D,
    source: &Source,
    live: &Live,
) -> Result<(), DeskFault>
    requires begun { IsSome (D.state desk.old).begun }
    requires faithful { IsFaithful source.now.script live.now.recorded.log.threads live.now.recorded.outcome }
    ensures { MakesUnless live.now.kept (Add (tail_bytes live.now.recorded.log.threads) ∷ Finish ∷ Say (outcome_text source.now.script live.now.recorded.outcome) ∷ []) (D.state desk.old) result (D.state desk.new) }
{
    match live.kept {
        Some(fault) => Err(fault),
        None => end_recorded(alloc, desk, &source.script, &live.recorded),
    }
}

/// The tail is added, the file is ended, and the outcome is said.
fn end_recorded<D: Desk>(
    alloc: Global,
    desk: &mut D,
    script: &Script,
    recorded: &Recorded,
) -> Result<(), DeskFault>
    requires begun { IsSome (D.state desk.old).begun }
    requires faithful { IsFaithful script.now recorded.now.log.threads recorded.now.outcome }
    ensures { MakesSome (Add (tail_bytes recorded.now.log.threads) ∷ Finish ∷ Say (outcome_text script.now recorded.now.outcome) ∷ []) (D.state desk.old) result (D.state desk.new) }
{
    if let Err(fault) = add_tail(alloc, desk, &recorded.log) {
        return Err(fault);
    }
    let Ok(text) = outcome_text(alloc, script, &recorded.outcome) else {
        return Err(DeskFault::OutOfMemory);
    };
    if let Err(fault) = desk.finish() {
        return Err(fault);
    }
    desk.say(alloc, text.as_slice())
}
