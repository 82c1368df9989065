//! The events of a run: accesses of objects, and marks.
ghost use Rattle.std.specs.Prelude.{◌≡◌};
ghost use Rattle.octet_model.specs.HappensBefore.{is_access, is_write, object_of};

/// A mark of a dependence between threads, as OCTET's transitions give them.
#[derive(Clone, Copy, Debug, PartialEq, Eq)]
pub enum Mark {
    /// After the first `upto` events of the thread `from`.
    Join { from: u8, upto: u64 },
    /// The draw of that number from the one counter of shared reads; the first draws 1.
    Draw { number: u64 },
    /// After all draws up to that number.
    Fence { number: u64 },
}

/// An event of a thread's journal. Objects are named by their place in the script.
#[derive(Clone, Copy, Debug, PartialEq, Eq)]
pub enum Event {
    Read {
        object: u16,
        value: u64,
    },
    Write {
        object: u16,
        value: u64,
    },
    /// One access that reads and writes.
    Update {
        object: u16,
        before: u64,
        after: u64,
    },
    Marked {
        mark: Mark,
    },
}

impl Event {
    /// The object that it accesses. A mark accesses none.
    #[inline(always)]
    pub fn object(self) -> Option<u16>
        ensures { result ≡ object_of self }
    {
        match self {
            Event::Read { object, .. }
            | Event::Write { object, .. }
            | Event::Update { object, .. } => Some(object),
            Event::Marked { .. } => None,
        }
    }

    /// Whether it is an access, and no mark.
    #[inline(always)]
    pub fn is_access(self) -> bool
        ensures { result ≡ is_access self }
    {
        match self {
            Event::Read { .. } | Event::Write { .. } | Event::Update { .. } => true,
            Event::Marked { .. } => false,
        }
    }

    /// Whether it is an access that writes: a write or an update.
    #[inline(always)]
    pub fn writes(self) -> bool
        ensures { result ≡ is_write self }
    {
        match self {
            Event::Write { .. } | Event::Update { .. } => true,
            Event::Read { .. } | Event::Marked { .. } => false,
        }
    }
}

/// Where an event stands: its thread, and its place in the thread's journal, counted from 0
/// with the marks.
#[derive(Clone, Copy, Debug, PartialEq, Eq)]
pub struct Place {
    pub thread: u8,
    pub event: u32,
}
