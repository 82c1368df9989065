//! A window is closed.
ghost use Rattle.std.specs.Prelude.{◌≡◌, ◌*◌, ◌<◌, ◌≤◌, length, map, IfOk, IfErr};
ghost use Rattle.octet_model.specs.declared.limits.TheConstants.{MAX_THREADS};
ghost use Rattle.octet_model.specs.Orders.{starting_heap, IsFaithful};
ghost use Rattle.octet_window.specs.Histories.{noted, HasHistory};
ghost use Rattle.octet_window.specs.Playing.{all_renamed};
ghost use Rattle.octet_window.specs.Windows.{IsRefused, IsWindowOf, MakesNoted};

use crate::notes::Notes;
use crate::playing::play_notes;
use crate::refusal::Refusal;
use crate::scripts::{all_renamed, most_lines, programs_of, script_of};
use crate::touching::touched_in;
use octet_model::{List, Log, MAX_FUEL, MAX_OBJECTS, Outcome, Recorded, Script};
use std::alloc::Global;

/// A window of a run as a script, with its log and its outcome.
#[derive(Debug, Drop)]
pub struct Window {
    /// The number in the run of each object of the script, in order.
    pub objects: List<u16>,
    pub script: Script,
    pub log: Log,
    pub outcome: Outcome,
}

/// The window of a run that begins at a front, from where on this is noted of each thread, in order. The script has the
/// objects that the threads access and their accesses as lines, and with its log and its outcome it is a faithful
/// recording, by which the threads make just the accesses that are noted, with the same values. An object begins with the
/// value that its first access shows, or with 0 where that writes it. The log has joins where conflicting accesses need
/// them, and no mark else. Refused where the script would be too large, or where what is noted has no one history, by the
/// marks, whatever the objects' values are at the front. Where there is a window, some order of what is noted meets each
/// mark's wait and has the value of each access.
pub fn close(alloc: Global, threads: &[Notes]) -> Result<Window, Refusal>
    requires some { 1 ≤ length threads.now }
    requires few { length threads.now ≤ MAX_THREADS }
    ensures faithful { IfOk result (λ w. IsFaithful w.script w.log.threads w.outcome) }
    ensures script { IfOk result (λ w. IsWindowOf threads.now w.objects w.script) }
    ensures accesses { IfOk result (λ w. MakesNoted threads.now w.objects w.script w.log.threads) }
    ensures history { IfOk result (λ w. HasHistory (starting_heap w.script) (noted (all_renamed w.objects threads.now))) }
    ensures refused { IfErr result (IsRefused threads.now) }
{
    let objects = touched_in(alloc, threads)?;
    if objects.len() > MAX_OBJECTS {
        return Err(Refusal::ManyObjects {
            objects: objects.len(),
        });
    }
    let notes = all_renamed(alloc, &objects, threads)?;
    let programs = programs_of(alloc, &notes)?;
    let lines = most_lines(programs.as_slice());
    if lines > MAX_FUEL as usize / threads.len() {
        return Err(Refusal::ManyLines { lines });
    }
    let run = play_notes(alloc, objects.len(), &notes)?;
    let script = script_of(alloc, run.starts.as_slice(), &objects, programs, lines)?;
    let Recorded { log, outcome } = run.finish(alloc, &script)?;
    Ok(Window {
        objects: List::from_vec(objects),
        script,
        log,
        outcome,
    })
}
