//! The values with which steps begin, as far as they show them.
ghost use Rattle.std.specs.Prelude.{◌≡◌, ℕ, length, replicate, IfOk};
ghost use Rattle.octet_window.specs.Courses.{AreSteps};
ghost use Rattle.octet_window.specs.Noting.{IsEventIn};
ghost use Rattle.octet_window.specs.Values.{shown_by, shown_before};

use crate::course::Step;
use octet_model::{Event, OutOfMemory};
use std::alloc::Global;

// Sets what an event shows of the values before it: that of its object. Where it writes the object, nobody sees it.
fn show(values: &mut Vec<u64>, event: Event)
    requires { IsEventIn (length values.old.items) event }
    ensures { values.new.items ≡ shown_by event values.old.items }
{
    match event {
        Event::Read { object, value } => values[object as usize] = value,
        Event::Write { object, .. } => values[object as usize] = 0,
        Event::Update { object, before, .. } => values[object as usize] = before,
        Event::Marked { .. } => {}
    }
}

/// The values of so many objects before these steps: each has the one that its first access shows, or 0.
pub(crate) fn shown_before(
    alloc: Global,
    objects: usize,
    steps: &[Step],
) -> Result<Vec<u64>, OutOfMemory>
    requires { (threads : ℕ) × AreSteps objects threads steps.now }
    ensures { IfOk result (λ values. values.items ≡ shown_before steps.now (replicate objects 0)) }
{
    let mut values = vec![in alloc; 0; objects]?;
    let mut place = steps.len();
    while place > 0 {
        place -= 1;
        show(&mut values, steps[place].event);
    }
    Ok(values)
}
