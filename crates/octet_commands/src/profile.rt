//! The commands `profile SCRIPT LOG` and `profile SCRIPT LOG NAME`.
ghost use Rattle.std.specs.Prelude.{◌≡◌, ◌<◌, ℕ, Some, length, IfErr, IfOk, OnOk};
ghost use Rattle.octet_model.specs.Orders.{journals_after, lowest_order};
ghost use Rattle.octet_replay.specs.Judged.{HasCause, IsLawful};
ghost use Rattle.octet_replay.specs.ReplayState.{plain_state, HasHalted};
ghost use Rattle.octet_commands.specs.declared.request.PairTask.TheVariants.{Profile};
ghost use Rattle.octet_commands.specs.Answer.{IsAnswered};
ghost use Rattle.octet_commands.specs.Profile.{class_of, class_count, counts, counts_text};
ghost use Rattle.octet_commands.specs.Commands.{PairReplays};

use crate::inputs::Pair;
use crate::refusal::{Refused, does_not_fit};
use crate::reply::{Reply, Status};
use octet_model::{Event, Log, Mark, OutOfMemory, Script};
use octet_replay::{ReplayFault, Replayer, Stepped};
use octet_watch::{Class, Classes};
use std::alloc::Global;

/// How many events of each class the journals of the log's lowest order have is said.
pub(crate) fn profile(alloc: Global, pair: &Pair) -> Result<Reply, Refused>
    ensures { IsAnswered (PairReplays Profile pair.now) result }
{
    let numbers = match counts(alloc, pair.wanted, &pair.source.script, &pair.loaded.log) {
        Ok(numbers) => numbers,
        Err(ReplayFault::OutOfMemory) => return Err(Refused::OutOfMemory),
        Err(fault) => return Err(Refused::Because(does_not_fit(alloc, &fault)?)),
    };
    let text = counts_text(alloc, pair.wanted, numbers.as_slice())?;
    Ok(Reply::saying(alloc, Status::Done, text))
}

/// The class of an event: its kind, or what it does to one object.
fn class_of(wanted: Option<usize>, event: &Event) -> u32
    ensures { result ≡ class_of wanted event.now }
{
    let Some(wanted) = wanted else {
        return match event {
            Event::Read { .. } => 0,
            Event::Write { .. } | Event::Update { .. } => 1,
            Event::Marked { mark } => match mark {
                Mark::Join { .. } => 2,
                Mark::Draw { .. } => 3,
                Mark::Fence { .. } => 4,
            },
        };
    };
    match event {
        Event::Read { object, .. } if usize::from(*object) == wanted => 0,
        Event::Write { object, .. } if usize::from(*object) == wanted => 1,
        Event::Update { object, .. } if usize::from(*object) == wanted => 1,
        _ => 2,
    }
}

/// How many classes there are.
fn class_count(wanted: Option<usize>) -> u32
    ensures { result ≡ class_count wanted }
{
    match wanted {
        None => 5,
        Some(_) => 3,
    }
}

/// How many events of the journals of the log's lowest order are in each class. Counts them as
/// they are made, and keeps none.
fn counts(
    alloc: Global,
    wanted: Option<usize>,
    script: &Script,
    log: &Log,
) -> Result<Vec<u64>, ReplayFault>
    ensures lawful { IfOk result (λ _. IsLawful script.now log.now.threads) }
    ensures counts { IfOk result (λ numbers. numbers.items ≡ counts wanted (journals_after script.now log.now.threads (lowest_order script.now log.now.threads))) }
    ensures refused { IfErr result (HasCause script.now log.now.threads) }
{
    let class: Class = Box::new(alloc, move |event: &Event| class_of(wanted, event))?;
    let mut replayer = Replayer::new(alloc, script, log)?;
    let numbers = count_steps(alloc, wanted, class, &mut replayer)?;
    replayer.end(alloc)?;
    Ok(numbers)
}

// Steps to the end of the lowest order, and counts the events.
fn count_steps(
    alloc: Global,
    wanted: Option<usize>,
    class: Class,
    replayer: &mut Replayer<'_>,
) -> Result<Vec<u64>, OutOfMemory>
    requires callable { Class.IsAlwaysCallable class }
    requires computes { (event : _) (answer : ℕ) → Class.post class event answer → answer ≡ class_of wanted event.now }
    requires begins { replayer.old.steps ≡ 0 }
    requires agree { length replayer.old.script.threads ≡ length replayer.old.log.threads }
    ensures halted { OnOk result (HasHalted replayer.new) }
    ensures same { OnOk result ((replayer.new.script ≡ replayer.old.script) × (replayer.new.log ≡ replayer.old.log)) }
    ensures counts { IfOk result (λ numbers. numbers.items ≡ counts wanted (plain_state replayer.new).journals) }
{
    let classes = Classes::new(class_count(wanted), class);
    let mut numbers = classes.zeros(alloc)?;
    while let Stepped::Made { event, .. } = replayer.step() {
        classes.add(&event, &mut numbers);
    }
    Ok(numbers)
}

fn counts_text(
    alloc: Global,
    wanted: Option<usize>,
    numbers: &[u64],
) -> Result<Vec<u8>, OutOfMemory>
    requires { length numbers.now ≡ class_count wanted }
    ensures { IfOk result (λ text. text.items ≡ counts_text wanted numbers.now) }
{
    match wanted {
        None => kinds_text(alloc, numbers),
        Some(_) => uses_text(alloc, numbers),
    }
}

/// A line for each kind.
fn kinds_text(alloc: Global, numbers: &[u64]) -> Result<Vec<u8>, OutOfMemory>
    requires { length numbers.now ≡ 5 }
    ensures { IfOk result (λ text. text.items ≡ counts_text None numbers.now) }
{
    let text = format!(in alloc;
        "read {}\nwrite {}\njoin {}\ndraw {}\nfence {}\n",
        numbers[0], numbers[1], numbers[2], numbers[3], numbers[4]
    )?;
    Ok(text.into_bytes())
}

/// A line for the object's reads, one for its writes, and one for all other events.
fn uses_text(alloc: Global, numbers: &[u64]) -> Result<Vec<u8>, OutOfMemory>
    requires { length numbers.now ≡ 3 }
    ensures { IfOk result (λ text. text.items ≡ counts_text (Some 0) numbers.now) }
{
    let text = format!(in alloc;
        "read {}\nwrite {}\nother {}\n",
        numbers[0], numbers[1], numbers[2]
    )?;
    Ok(text.into_bytes())
}
