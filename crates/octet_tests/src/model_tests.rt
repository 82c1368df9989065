//! What is kept of journals, and copies.
ghost use Rattle.std.specs.Prelude.{◌≡◌, ◌∷◌, [], IfOk};
ghost use Rattle.octet_model.specs.declared.event.Event.TheVariants.{Read, Write, Marked};
ghost use Rattle.octet_model.specs.declared.event.Mark.TheVariants.{Join};

use crate::samples::script;
use octet_log::show;
use octet_model::{Event, List, Mark, OutOfMemory, log_of, reads_of};
use octet_script::print;
use std::alloc::Global;
use std::test::Fail;

// The second thread reads what the first writes.
fn two_journals(alloc: Global) -> Result<List<List<Event>>, OutOfMemory>
    ensures { IfOk result (λ journals. journals ≡ (Write 0 7 ∷ []) ∷ (Marked (Join 0 1) ∷ Read 0 7 ∷ []) ∷ []) }
{
    let write = Event::Write {
        object: 0,
        value: 7,
    };
    let join = Event::Marked {
        mark: Mark::Join { from: 0, upto: 1 },
    };
    let read = Event::Read {
        object: 0,
        value: 7,
    };
    let mut journals = List::new(alloc);
    journals.push(List::from_vec(Vec::from_slice(alloc, &[write])?))?;
    journals.push(List::from_vec(Vec::from_slice(alloc, &[join, read])?))?;
    Ok(journals)
}

#[test]
fn log_and_values_of_journals(rt: HostRuntime) -> Result<(), Fail> {
    let alloc = rt.alloc();
    let journals = two_journals(alloc)?;
    let log = log_of(alloc, journals.as_slice())?.try_clone(alloc)?;
    assert_eq!(rt;
        show(alloc, &log)?.as_slice(),
        b"threads 2\nthread 0 accesses 1 marks 0\nthread 1 accesses 1 marks 1\ngap 0 join 0 1\n".as_slice()
    );
    let reads = reads_of(alloc, journals.as_slice())?;
    let value = reads.get(1).and_then(|values| values.get(0));
    assert_eq!(rt; value, Some(&7));
    Ok(())
}

#[test]
fn a_script_is_copied(rt: HostRuntime) -> Result<(), Fail> {
    let alloc = rt.alloc();
    let text = b"fuel 9\nobject x 5\nthread\nset r0 7\nwrite x r0\nthread\nread r0 x\n".as_slice();
    let copy = script(alloc, text)?.try_clone(alloc)?;
    assert_eq!(rt; copy.thread_count(), 2);
    assert_eq!(rt; copy.starting_heap(alloc)?.as_slice(), [5].as_slice());
    assert_eq!(rt; print(alloc, &copy)?.as_slice(), text);
    Ok(())
}
