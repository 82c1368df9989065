//! The commands that say what was read, or what it comes to: `tidy SCRIPT`, `show LOG`,
//! `replay SCRIPT LOG` and `verify SCRIPT LOG`; and the check that other commands begin with.
ghost use Rattle.std.specs.Prelude.{◌≡◌, IfOk};
ghost use Rattle.octet_clock.specs.declared.verdict.Verdict.TheVariants as verdict;
ghost use Rattle.octet_commands.specs.declared.request.PairTask.TheVariants.{Replay, Verify};
ghost use Rattle.octet_commands.specs.Answer.{answer_of, verdict_said, IsAnswered};
ghost use Rattle.octet_commands.specs.Commands.{TidyAnswers, ShowAnswers, PairReplays, ParallelReplays};
ghost use Rattle.octet_commands.specs.Checked.{IsChecked};

use crate::inputs::{Pair, Source};
use crate::refusal::{Refused, does_not_fit};
use crate::reply::{Reply, Status};
use octet_clock::Verdict;
use octet_log::Loaded;
use octet_model::{OutOfMemory, Place, outcome_text};
use octet_replay::ReplayFault;
use octet_script::print;
use std::alloc::Global;

/// Of a script its canonical text is said.
pub(crate) fn tidy(alloc: Global, source: &Source) -> Result<Reply, OutOfMemory>
    ensures { IfOk result (λ reply. TidyAnswers source.now (answer_of reply)) }
{
    let text = print(alloc, &source.script)?;
    Ok(Reply::saying(alloc, Status::Done, text))
}

/// Of a log its text is said.
pub(crate) fn show(alloc: Global, loaded: &Loaded) -> Result<Reply, OutOfMemory>
    ensures { IfOk result (λ reply. ShowAnswers loaded.now (answer_of reply)) }
{
    let text = octet_log::show(alloc, &loaded.log)?;
    Ok(Reply::saying(alloc, Status::Done, text))
}

/// The outcome of the log's lowest order is said.
pub(crate) fn replay(alloc: Global, pair: &Pair) -> Result<Reply, Refused>
    ensures { IsAnswered (PairReplays Replay pair.now) result }
{
    let outcome = match octet_replay::replay(alloc, &pair.source.script, &pair.loaded.log) {
        Ok(outcome) => outcome,
        Err(ReplayFault::OutOfMemory) => return Err(Refused::OutOfMemory),
        Err(fault) => return Err(Refused::Because(does_not_fit(alloc, &fault)?)),
    };
    let text = outcome_text(alloc, &pair.source.script, &outcome)?;
    Ok(Reply::saying(alloc, Status::Done, text))
}

/// Whether the log orders all conflicts is said.
#[tactic(auto, using(crate::proofs::lemmas::Checking::verified_not, crate::proofs::lemmas::Checking::verified_ordered))]
pub(crate) fn verify(alloc: Global, pair: &Pair) -> Result<Reply, Refused>
    ensures { IsAnswered (PairReplays Verify pair.now) result }
{
    check_order(alloc, pair)?;
    let line = Vec::from_slice(alloc, b"ordered\n")?;
    Ok(Reply::saying(alloc, Status::Done, line))
}

/// Passes where the log fits the script and orders all conflicts; else it is said why not.
pub(crate) fn check_order(alloc: Global, pair: &Pair) -> Result<(), Refused>
    ensures { IsChecked pair.now result }
{
    match octet_clock::verify(alloc, &pair.source.script, &pair.loaded.log) {
        Ok(Verdict::Ordered) => Ok(()),
        Ok(Verdict::Unordered { first, second }) => {
            Err(Refused::Because(say_unordered(alloc, first, second)?))
        }
        Err(ReplayFault::OutOfMemory) => Err(Refused::OutOfMemory),
        Err(fault) => Err(Refused::Because(does_not_fit(alloc, &fault)?)),
    }
}

/// The outcome of the log's lowest order is said, where the log orders all conflicts.
#[tactic(auto, using(crate::proofs::lemmas::Checking::check_refused, crate::proofs::lemmas::Checking::check_passed))]
pub fn replay_ordered(alloc: Global, pair: &Pair) -> Result<Reply, Refused>
    ensures { IsAnswered (ParallelReplays pair.now) result }
{
    check_order(alloc, pair)?;
    replay(alloc, pair)
}

fn say_unordered(alloc: Global, first: Place, second: Place) -> Result<Reply, OutOfMemory>
    ensures { IfOk result (λ reply. answer_of reply ≡ verdict_said (verdict.Unordered first second)) }
{
    let line = format!(in alloc;
        "unordered {}:{} {}:{}\n",
        first.thread, first.event, second.thread, second.event
    )?;
    Ok(Reply::saying(alloc, Status::Unordered, line.into_bytes()))
}
