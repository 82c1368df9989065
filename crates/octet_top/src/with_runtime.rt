//! Requests served with the runtime, which some of them need: `run SCRIPT LOG`, `locked SCRIPT LOG`,
//! `turns SCRIPT LOG PICKS`, `gen NUMBER SCRIPT LOG` and `parallel SCRIPT LOG`; and all others.
ghost use Rattle.std.specs.Prelude.{◌≡◌, IfOk, None, Some};
ghost use Rattle.octet_commands.specs.Answer.{answer_of, file_of, IsAnswered, given_reply, writes_file};
ghost use Rattle.octet_commands.specs.Request.{shown};
ghost use Rattle.octet_commands.specs.declared.request.Request.TheVariants.{Run};
ghost use Rattle.octet_commands.specs.declared.request.Way.TheVariants.{BehindLock, ByPicks};
ghost use Rattle.octet_commands.specs.Commands.{IsGeneration, Records};
ghost use Rattle.octet_model.specs.Orders.{IsFaithful};
ghost use Rattle.octet_model.specs.Texts.{log_bytes, outcome_text};
ghost use Rattle.octet_commands.specs.Replies.{Replies};
ghost use Rattle.octet_top.specs.Serving.{IsServed};

use crate::live::serve_live;
use crate::parallel::replay_on_threads;
use octet_base::Desk;
use octet_commands::{
    Output, Refused, Reply, Request, Way, deliver, picks_of, read_script, reply_alone, serve_marks,
};
use octet_gen::make;
use octet_log::encode_v1;
use octet_machine::play;
use octet_model::{List, OutOfMemory, Recorded, Script, outcome_text};
use octet_script::print;
use octet_threads::{HeapGate, run, run_locked};
use std::alloc::Global;
use std::sync::Wait;
use std::thread::Threads;

/// What is said of every generated script.
const SUMMARY: &[u8] = b"threads 8\nobjects 64\naccesses 160000\n";

/// Serves a request.
pub(crate) fn serve_request<R: Threads + Wait + Sync, D: Desk, G: HeapGate>(
    rt: &R,
    alloc: Global,
    request: Request<&str>,
    desk: &mut D,
    gate: &G,
) -> u8
    requires { (D.state desk.old).begun ≡ None }
    ensures { IsServed (Some (shown request.entry)) (D.state desk.old) (D.state desk.new) result }
{
    match request {
        Request::Run { way, script, log } => match way {
            Way::AsTheyCome => serve_live(rt, alloc, desk, gate, script, log),
            Way::BehindLock => {
                let reply = run_behind_lock(rt, alloc, desk, gate, script, log);
                deliver(alloc, desk, reply)
            }
            Way::ByPicks { picks } => {
                let reply = run_by_picks(rt, alloc, desk, picks, script, log);
                deliver(alloc, desk, reply)
            }
        },
        Request::Gen {
            number,
            script,
            log,
        } => {
            let reply = generate(rt, alloc, gate, number, script, log);
            deliver(alloc, desk, reply)
        }
        Request::Marks { file } => serve_marks(alloc, desk, file),
        Request::Parallel { script, log } => {
            let reply = replay_on_threads(rt, alloc, desk, gate, script, log);
            deliver(alloc, desk, reply)
        }
        _ => {
            let reply = reply_alone(alloc, desk, Some(request));
            deliver(alloc, desk, reply)
        }
    }
}

/// The script is run as its threads come, over a machine behind one lock; they pass the gate before
/// each access.
#[tactic(auto, using(octet_commands::proofs::lemmas::Found::run_stops))]
fn run_behind_lock<R: Threads + Wait + Sync, D: Desk, G: HeapGate>(
    rt: &R,
    alloc: Global,
    desk: &mut D,
    gate: &G,
    script: &str,
    log: &str,
) -> Result<Reply, Refused>
    ensures { Replies (Some (Run BehindLock script.now log.now)) (D.state desk.old) (given_reply result) (D.state desk.new) }
{
    let source = read_script(alloc, desk, script)?;
    let recorded = run_locked(rt, alloc, &source.script, gate)?;
    Ok(say_recorded(alloc, &source.script, &recorded, log)?)
}

/// The script is run by picks, on the calling thread.
#[tactic(auto, using(octet_commands::proofs::lemmas::Found::run_stops))]
fn run_by_picks<R: Threads + Wait + Sync, D: Desk>(
    rt: &R,
    alloc: Global,
    desk: &mut D,
    picks: &str,
    script: &str,
    log: &str,
) -> Result<Reply, Refused>
    ensures { Replies (Some (Run (ByPicks picks.now) script.now log.now)) (D.state desk.old) (given_reply result) (D.state desk.new) }
{
    let source = read_script(alloc, desk, script)?;
    let recorded = record_by_picks(rt, alloc, &source.script, picks)?;
    Ok(say_recorded(alloc, &source.script, &recorded, log)?)
}

/// A faithful recording of the script, which is that of a run by these picks.
fn record_by_picks<R: Threads + Wait + Sync>(
    rt: &R,
    alloc: Global,
    script: &Script,
    picks: &str,
) -> Result<Recorded, OutOfMemory>
    ensures { IfOk result (λ recorded. Records (ByPicks picks.now) script.now recorded.log recorded.outcome) }
{
    play(rt, alloc, script, &picks_of(alloc, picks)?)
}

/// The log's bytes are written, in version 1, and the outcome is said.
fn say_recorded(
    alloc: Global,
    script: &Script,
    recorded: &Recorded,
    log_name: &str,
) -> Result<Reply, OutOfMemory>
    requires { IsFaithful script.now recorded.now.log.threads recorded.now.outcome }
    ensures { IfOk result (λ reply. answer_of reply ≡ writes_file log_name.now (log_bytes recorded.now.log.threads) (outcome_text script.now recorded.now.outcome)) }
{
    let text = outcome_text(alloc, script, &recorded.outcome)?;
    let bytes = encode_v1(alloc, &recorded.log)?;
    Reply::writing(alloc, log_name, bytes, text)
}

/// The number's script is run: its canonical text and then the log's bytes are written, and the
/// summary is said.
fn generate<R: Threads + Wait + Sync, G: HeapGate>(
    rt: &R,
    alloc: Global,
    gate: &G,
    number: u64,
    script_name: &str,
    log_name: &str,
) -> Result<Reply, Refused>
    ensures { IsAnswered (IsGeneration number script_name.now log_name.now) result }
{
    let script = make(alloc, number)?;
    let recorded = run(rt, alloc, &script, gate)?;
    let text = print(alloc, &script)?;
    let bytes = encode_v1(alloc, &recorded.log)?;
    let script_file = output(alloc, script_name, text)?;
    let log_file = output(alloc, log_name, bytes)?;
    Ok(Reply::writing_both(
        alloc,
        script_file,
        log_file,
        Vec::from_slice(alloc, SUMMARY)?,
    )?)
}

fn output(alloc: Global, name: &str, bytes: Vec<u8>) -> Result<Output, OutOfMemory>
    ensures { IfOk result (λ output. file_of output ≡ (name.now, bytes.items)) }
{
    Ok(Output {
        name: String::from_str(alloc, name)?,
        bytes: List::from_vec(bytes),
    })
}
