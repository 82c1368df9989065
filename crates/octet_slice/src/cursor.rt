//! Going over the marks of a thread's log.
ghost use Rattle.std.specs.Prelude.{◌≡◌, ◌<◌, List, length, IfSome};
ghost use Rattle.octet_model.specs.declared.event.Event.{Event};
ghost use Rattle.octet_slice.specs.code.Cursors.{past_mark, IsCursorOf, IsLogOfOne, IsNextMark};

use octet_model::{Mark, ThreadLog};

/// A mark, and its place among the events of its thread.
#[derive(Clone, Copy)]
pub(crate) struct Placed {
    pub(crate) event: u64,
    pub(crate) mark: Mark,
}

/// How many marks of a thread were passed, and how many events it has made with the last of these.
#[derive(Clone, Copy)]
pub(crate) struct Cursor {
    pub(crate) marks: usize,
    pub(crate) events: u64,
}

impl Cursor {
    /// Before the first mark.
    pub(crate) fn new() -> Cursor
        ensures { result ≡ record { marks = 0; events = 0 } }
    {
        Cursor {
            marks: 0,
            events: 0,
        }
    }

    /// The next mark, if one is left.
    pub(crate) fn next(&self, log: &ThreadLog) -> Option<Placed>
        ensures next { (journal : List Event) → IsLogOfOne journal log.now → IsCursorOf journal self.now → IsNextMark journal self.now.events result }
        ensures left { IfSome result (λ _. self.now.marks < length log.now.marks) }
        ensures room { IfSome result (λ next. (self.now.marks < usize.MAX) × (next.event < u64.MAX)) }
    {
        if self.marks >= log.marks.len() {
            return None;
        }
        let next = log.marks.as_slice()[self.marks];
        let event = self.events.saturating_add(u64::from(next.gap));
        if event == u64::MAX {
            return None;
        }
        Some(Placed {
            event,
            mark: next.mark,
        })
    }

    /// Past the next mark.
    pub(crate) fn past(&self, next: Placed) -> Cursor
        requires marks { self.now.marks < usize.MAX }
        requires event { next.event < u64.MAX }
        ensures { result ≡ past_mark self.now next }
    {
        Cursor {
            marks: self.marks + 1,
            events: next.event + 1,
        }
    }
}
