//! A run whose threads make their accesses one after another. Each access comes after the joins that order it
//! behind the earlier accesses that it conflicts with.
ghost use Rattle.std.specs.Prelude.{◌≡◌, ◌+◌, ◌*◌, ◌<◌, ◌≤◌, length, IfOk, OnOk, Some};
ghost use Rattle.octet_model.specs.declared.limits.TheConstants.{MAX_OBJECTS};
ghost use Rattle.octet_model.specs.HappensBefore.{is_write, object_of};
ghost use Rattle.octet_model.specs.Machine.{event_made, heap_after, no_events};
ghost use Rattle.octet_model.specs.Plays.{operation_of};
ghost use Rattle.octet_window.specs.Ordering.{needed, parts_of, pushed, CountsLast, IsAtRest, IsJoining, Keeps, MakesAccess, WritesBelow};

use crate::notes::Note;
use crate::table::Table;
use octet_model::{Event, List, MAX_THREADS, Mark, OutOfMemory};
use std::alloc::Global;

/// The threads as far as they are, and which of their events come after which.
#[derive(Drop)]
pub(crate) struct OrderedRun {
    pub(crate) starts: List<u64>,
    pub(crate) heap: Vec<u64>,
    pub(crate) journals: Vec<List<Event>>,
    /// Of each thread and each other one, how many of the other's events its last join of it names.
    pub(crate) known: Table,
    /// Of each object and each thread, how many events the thread had made after its last access of the object.
    pub(crate) accessed: Table,
    /// The same, of the accesses that write.
    pub(crate) written: Table,
}

// No event of any thread.
fn no_journals(alloc: Global, threads: &[List<Note>]) -> Result<Vec<List<Event>>, OutOfMemory>
    ensures { IfOk result (λ journals. journals.items ≡ no_events threads.now) }
{
    let mut journals = Vec::new(alloc);
    for _notes in threads {
        journals.push(List::new(alloc))?;
    }
    Ok(journals)
}

impl OrderedRun {
    /// No event yet, from these values.
    pub(crate) fn new(
        alloc: Global,
        starts: &[u64],
        threads: &[List<Note>],
    ) -> Result<OrderedRun, OutOfMemory>
        requires few { length threads.now ≤ MAX_THREADS }
        requires objects { length starts.now ≤ MAX_OBJECTS }
        ensures rest { IfOk result (λ run. IsAtRest (parts_of run)) }
        ensures starts { IfOk result (λ run. run.starts ≡ starts.now) }
        ensures heap { IfOk result (λ run. run.heap.items ≡ starts.now) }
        ensures none { IfOk result (λ run. run.journals.items ≡ no_events threads.now) }
    {
        Ok(OrderedRun {
            starts: List::from_vec(Vec::from_slice(alloc, starts)?),
            heap: Vec::from_slice(alloc, starts)?,
            journals: no_journals(alloc, threads)?,
            known: Table::new(alloc, MAX_THREADS)?,
            accessed: Table::new(alloc, starts.len())?,
            written: Table::new(alloc, starts.len())?,
        })
    }

    // Puts the event at the end of the thread's journal.
    fn push(&mut self, thread: u8, event: Event) -> Result<(), OutOfMemory>
        requires { thread < length self.old.journals.items }
        ensures { OnOk result (parts_of self.new ≡ pushed thread event (parts_of self.old)) }
    {
        self.journals[thread as usize].push(event)?;
        Ok(())
    }

    // How many events of a thread an access of the object has to come after.
    fn needed(&self, writes: bool, object: u16, from: u8) -> u64
        requires accessed { MAX_THREADS * object + from < length self.now.accessed.counts.items }
        requires written { MAX_THREADS * object + from < length self.now.written.counts.items }
        ensures { result ≡ needed (parts_of self.now) writes object from }
    {
        if writes {
            self.accessed.get(object, from)
        } else {
            self.written.get(object, from)
        }
    }

    // Makes the join of a thread that the access of another one needs, if it needs one.
    fn join(&mut self, thread: u8, from: u8, object: u16, writes: bool) -> Result<(), OutOfMemory>
        requires joining { IsJoining (parts_of self.old) thread object writes from }
        requires from { from < length self.old.journals.items }
        requires object { object < length self.old.starts }
        ensures joining { OnOk result (IsJoining (parts_of self.new) thread object writes (from + 1)) }
        ensures keeps { OnOk result (Keeps (parts_of self.old) (parts_of self.new)) }
    {
        let upto = self.needed(writes, object, from);
        if from == thread || upto <= self.known.get(u16::from(thread), from) {
            return Ok(());
        }
        let mark = Mark::Join { from, upto };
        self.push(thread, Event::Marked { mark })?;
        self.known.set(u16::from(thread), from, upto);
        Ok(())
    }

    // Makes the joins that the access of a thread needs.
    fn join_all(&mut self, thread: u8, object: u16, writes: bool) -> Result<(), OutOfMemory>
        requires joining { IsJoining (parts_of self.old) thread object writes 0 }
        requires object { object < length self.old.starts }
        ensures joining { OnOk result (IsJoining (parts_of self.new) thread object writes (length self.old.journals.items)) }
        ensures keeps { OnOk result (Keeps (parts_of self.old) (parts_of self.new)) }
    {
        for from in 0..self.journals.len() as u8 {
            self.join(thread, from, object, writes)?;
        }
        Ok(())
    }

    // Counts the last event of a thread as its last access of the object.
    fn count(&mut self, thread: u8, object: u16, writes: bool)
        requires there { thread < length self.old.journals.items }
        requires column { thread < MAX_THREADS }
        requires accessed { MAX_THREADS * object + thread < length self.old.accessed.counts.items }
        requires written { MAX_THREADS * object + thread < length self.old.written.counts.items }
        ensures { CountsLast thread object writes (parts_of self.old) (parts_of self.new) }
    {
        let made = self.journals[thread as usize].len() as u64;
        self.accessed.set(object, thread, made);
        if writes {
            self.written.set(object, thread, made);
        }
    }

    // Makes the access, after all that it has to come after.
    fn access(&mut self, thread: u8, object: u16, event: Event) -> Result<(), OutOfMemory>
        requires joining { IsJoining (parts_of self.old) thread object (is_write event) (length self.old.journals.items) }
        requires object { object < length self.old.starts }
        requires of { object_of event ≡ Some object }
        requires value { event_made (operation_of event) self.old.heap.items ≡ event }
        ensures rest { OnOk result (IsAtRest (parts_of self.new)) }
        ensures makes { OnOk result (MakesAccess thread event (parts_of self.old) (parts_of self.new)) }
    {
        self.push(thread, event)?;
        self.count(thread, object, event.writes());
        change_heap(&mut self.heap, event);
        Ok(())
    }

    /// Makes an access of a thread, after the joins that it needs.
    pub(crate) fn make(&mut self, thread: u8, object: u16, event: Event) -> Result<(), OutOfMemory>
        requires rest { IsAtRest (parts_of self.old) }
        requires there { thread < length self.old.journals.items }
        requires object { object < length self.old.starts }
        requires of { object_of event ≡ Some object }
        requires value { event_made (operation_of event) self.old.heap.items ≡ event }
        ensures rest { OnOk result (IsAtRest (parts_of self.new)) }
        ensures makes { OnOk result (MakesAccess thread event (parts_of self.old) (parts_of self.new)) }
    {
        self.join_all(thread, object, event.writes())?;
        self.access(thread, object, event)
    }
}

// Changes the values by an access.
fn change_heap(heap: &mut Vec<u64>, event: Event)
    requires { WritesBelow (length heap.old.items) event }
    ensures { heap.new.items ≡ heap_after (operation_of event) heap.old.items }
{
    match event {
        Event::Write { object, value }
        | Event::Update {
            object,
            after: value,
            ..
        } => heap[object as usize] = value,
        Event::Read { .. } | Event::Marked { .. } => {}
    }
}
