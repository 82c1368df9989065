//! Counting events by class.
ghost use Rattle.std.specs.Prelude.{◌≡◌, ◌<◌, ◌+◌, ℕ, [], ◌∷◌, IfOk, length, replicate, slice_index, slice_set};
ghost use Rattle.octet_model.specs.declared.event.Event.{Event};
ghost use Rattle.octet_watch.specs.Tally.{AnswersAt, IsTally, CountsByFunction, CountsOn, AddsByFunction, saturated};

use octet_model::{Event, List, OutOfMemory};
use std::alloc::Global;

/// A function from events to numbers of classes.
pub type Class = Box<dyn Fn(&Event) -> u32 + Drop>;

/// A class function that is kept with what is known of it: it may be called on every event, and
/// answers a class below `count`.
#[derive(Drop)]
pub struct Classes {
    count: u32,
    class: Class,
    ghost callable: { Class.IsAlwaysCallable class },
    ghost below: { (event : _) (answer : ℕ) → Class.post class event answer → answer < count },
}

// Counts one more event of a class.
fn count_one(numbers: &mut [u64], class: u32)
    requires { class < length numbers.old }
    ensures { numbers.new ≡ slice_set numbers.old class (saturated (slice_index numbers.old class + 1)) }
{
    let number = numbers[class as usize];
    numbers[class as usize] = number.saturating_add(1);
}

impl Classes {
    /// Keeps a function that may be called on every event, and answers a class below `count`.
    pub fn new(count: u32, class: Class) -> Classes
        requires callable { Class.IsAlwaysCallable class }
        requires below { (event : _) (answer : ℕ) → Class.post class event answer → answer < count }
        ensures count { result.count ≡ count }
        ensures class { result.class ≡ class }
    {
        Classes { count, class }
    }

    fn class_of(&self, event: &Event) -> u32
        ensures below { result < self.now.count }
        ensures answer { AnswersAt (Class.post self.now.class) event.now result }
    {
        (self.class)(event)
    }

    /// As many numbers as there are classes, before any event is counted.
    pub fn zeros(&self, alloc: Global) -> Result<Vec<u64>, OutOfMemory>
        ensures { IfOk result (λ numbers. numbers.items ≡ replicate self.now.count 0) }
    {
        Ok(vec![in alloc; 0u64; self.count as usize]?)
    }

    /// Counts one event more, in its class. A number saturates at 2^64 - 1. Takes no memory.
    pub fn add(&self, event: &Event, numbers: &mut [u64])
        requires { length numbers.old ≡ self.now.count }
        ensures counts { CountsOn (AnswersAt (Class.post self.now.class)) (event.now ∷ []) numbers.old numbers.new }
        ensures by_function { AddsByFunction (AnswersAt (Class.post self.now.class)) event.now numbers.old numbers.new }
    {
        let class = self.class_of(event);
        count_one(numbers, class);
    }

    fn count_journal(&self, journal: &[Event], numbers: &mut [u64])
        requires { length numbers.old ≡ self.now.count }
        ensures { CountsOn (AnswersAt (Class.post self.now.class)) journal.now numbers.old numbers.new }
    {
        for event in journal {
            self.add(event, numbers);
        }
    }

    /// How many events of the journals the function puts in each class: the k-th number is that
    /// of class k. A number saturates at 2^64 - 1, which no journals in memory reach.
    pub fn tally(
        &self,
        alloc: Global,
        journals: &List<List<Event>>,
    ) -> Result<List<u64>, OutOfMemory>
        ensures length { IfOk result (λ numbers. length numbers ≡ self.now.count) }
        ensures tally { IfOk result (λ numbers. IsTally (AnswersAt (Class.post self.now.class)) self.now.count journals.now numbers) }
        ensures by_function { IfOk result (λ numbers. CountsByFunction (AnswersAt (Class.post self.now.class)) self.now.count journals.now numbers) }
    {
        let mut numbers = self.zeros(alloc)?;
        for journal in journals.as_slice() {
            self.count_journal(journal.as_slice(), &mut numbers);
        }
        Ok(List::from_vec(numbers))
    }
}
