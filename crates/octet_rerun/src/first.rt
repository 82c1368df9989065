//! The first of the values that threads note in one place. It is made of one word, which a static library can link; a
//! `OnceLock` may put a thread to sleep, so none can.
use counted_slot::{Counted, FREE, Fits, MOST_READERS, ONE_READER, PRESENT, TAKEN};

// Threads that look at the same time make each other look again. After so many looks a thread sees nothing.
const LOOKS: u32 = 64;

// What a slot holds. Any value may be noted.
#[derive(Drop)]
struct Noted<T>(Option<T>);

impl<T> Fits for Noted<T> {
    type Tag = ();

    ghost fits = { λ _ _. Unit {0} };
}

/// The first of the values that threads note in one place, where all of them may see it. No call waits, and none takes
/// memory.
#[derive(Drop)]
pub struct First<T> {
    slot: Counted<Noted<T>>,
}

impl<T: Copy> First<T> {
    /// Nothing is noted.
    pub fn new() -> Self {
        First {
            slot: Counted::new(Noted(None), &()),
        }
    }

    /// Notes a value, unless a thread has noted one before.
    pub fn note(&self, value: T) {
        let (found, claim) = self.slot.turn(FREE, TAKEN);
        if found == FREE {
            claim.put(Noted(Some(value)), PRESENT);
        } else {
            claim.done();
        }
    }

    /// The value that was noted. None where there is none yet, or where others come between again and again: then the
    /// thread looks another time.
    pub fn get(&self) -> Option<T> {
        for _ in 0..LOOKS {
            let seen = self.slot.load();
            if seen % ONE_READER != PRESENT || seen / ONE_READER >= MOST_READERS {
                return None;
            }
            let (found, claim) = self.slot.turn(seen, seen + ONE_READER);
            if found == seen {
                let value = claim.get().0;
                claim.leave();
                return value;
            }
            claim.done();
        }
        None
    }
}
