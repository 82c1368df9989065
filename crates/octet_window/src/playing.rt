//! The threads make what is noted of them, in an order that their marks allow.
ghost use Rattle.std.specs.Prelude.{◌≡◌, ◌≢◌, ◌<◌, ◌≤◌, true, false, length, IfOk, IfErr, OnOk};
ghost use Rattle.octet_model.specs.declared.limits.TheConstants.{MAX_THREADS, MAX_OBJECTS};
ghost use Rattle.octet_model.specs.Machine.{event_made};
ghost use Rattle.octet_model.specs.Plays.{operation_of};
ghost use Rattle.octet_window.specs.Courses.{AreSteps};
ghost use Rattle.octet_window.specs.Histories.{noted, HasHistory};
ghost use Rattle.octet_window.specs.Noting.{AllIn, IsEventIn};
ghost use Rattle.octet_window.specs.Ordering.{parts_of, IsAtRest};
ghost use Rattle.octet_window.specs.Playing.{AddsEvent, HaveAll, HaveSteps, IsEventRefusal, IsMisfit, IsPlayRefusal};
ghost use Rattle.octet_window.specs.Values.{Fit};

use crate::course::{Step, steps_of};
use crate::notes::Note;
use crate::ordered::OrderedRun;
use crate::refusal::Refusal;
use crate::shown::shown_before;
use octet_model::{Event, List};
use std::alloc::Global;

// Whether the event has the values that its object has.
fn has_values(heap: &[u64], event: Event) -> bool
    requires { IsEventIn (length heap.now) event }
    ensures yes { result ≡ true → event_made (operation_of event) heap.now ≡ event }
    ensures no_ { result ≡ false → event_made (operation_of event) heap.now ≢ event }
{
    match event {
        Event::Read { object, value } => heap[object as usize] == value,
        Event::Update { object, before, .. } => heap[object as usize] == before,
        Event::Write { .. } | Event::Marked { .. } => true,
    }
}

// Makes a step. Of a mark nothing is left.
#[tactic(auto, using(crate::proofs::Steps::object_in, crate::proofs::Steps::adds_access, crate::proofs::Steps::adds_mark))]
fn make(run: &mut OrderedRun, step: Step) -> Result<(), Refusal>
    requires rest { IsAtRest (parts_of run.old) }
    requires there { step.thread < length run.old.journals.items }
    requires inside { IsEventIn (length run.old.starts) step.event }
    ensures rest { OnOk result (IsAtRest (parts_of run.new)) }
    ensures adds { OnOk result (AddsEvent step.thread step.event (parts_of run.old) (parts_of run.new)) }
    ensures value { OnOk result (event_made (operation_of step.event) run.old.heap.items ≡ step.event) }
    ensures refused { IfErr result (IsEventRefusal run.old.heap.items step.event) }
{
    let Some(object) = step.event.object() else {
        return Ok(());
    };
    if !has_values(run.heap.as_slice(), step.event) {
        return Err(Refusal::NoHistory);
    }
    run.make(step.thread, object, step.event)?;
    Ok(())
}

// The run that the threads make by these steps, from these values on. Refused where a step has another value.
fn play_steps(
    alloc: Global,
    starts: &[u64],
    threads: &[List<Note>],
    steps: &[Step],
) -> Result<OrderedRun, Refusal>
    requires few { length threads.now ≤ MAX_THREADS }
    requires objects { length starts.now ≤ MAX_OBJECTS }
    requires inside { AreSteps (length starts.now) (length threads.now) steps.now }
    ensures rest { IfOk result (λ run. IsAtRest (parts_of run)) }
    ensures starts { IfOk result (λ run. run.starts ≡ starts.now) }
    ensures many { IfOk result (λ run. length run.journals.items ≡ length threads.now) }
    ensures made { IfOk result (λ run. HaveSteps steps.now run.journals.items) }
    ensures fit { IfOk result (λ run. Fit steps.now starts.now) }
    ensures refused { IfErr result (IsMisfit steps.now starts.now) }
{
    let mut run = OrderedRun::new(alloc, starts, threads)?;
    for step in steps {
        make(&mut run, *step)?;
    }
    Ok(run)
}

/// The run that the threads make by what is noted of them, from the values that they show. Refused where they do not make
/// it by their marks, from whatever values: where what is noted has no one history.
pub(crate) fn play_notes(
    alloc: Global,
    objects: usize,
    threads: &[List<Note>],
) -> Result<OrderedRun, Refusal>
    requires few { length threads.now ≤ MAX_THREADS }
    requires objects { objects ≤ MAX_OBJECTS }
    requires inside { AllIn objects threads.now }
    ensures rest { IfOk result (λ run. IsAtRest (parts_of run)) }
    ensures starts { IfOk result (λ run. length run.starts ≡ objects) }
    ensures many { IfOk result (λ run. length run.journals.items ≡ length threads.now) }
    ensures made { IfOk result (λ run. HaveAll threads.now run.journals.items) }
    ensures history { IfOk result (λ run. HasHistory run.starts (noted threads.now)) }
    ensures refused { IfErr result (IsPlayRefusal objects threads.now) }
{
    let steps = steps_of(alloc, threads)?;
    let starts = shown_before(alloc, objects, steps.as_slice())?;
    let run = play_steps(alloc, starts.as_slice(), threads, steps.as_slice())?;
    Ok(run)
}
