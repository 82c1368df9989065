//! A kept test of events.
ghost use Rattle.std.specs.Prelude.{◌≡◌};

use octet_model::Event;

/// A test of events.
pub type Test = Box<dyn Fn(&Event) -> bool + Drop>;

/// A test that is kept with what is known of it: it may be called on every event.
#[derive(Drop)]
pub struct Stop {
    test: Test,
    ghost callable: { Test.IsAlwaysCallable test },
}

/// What a kept test answers at an event, for contracts.
pub trait Answers {
    ghost use Rattle.std.specs.Prelude.{Bool};
    ghost use Rattle.octet_model.specs.declared.event.Event.{Event};

    ghost answers: { Self → Event → Bool → Type 0 };
}

impl Answers for Stop {
    ghost use Rattle.octet_watch.specs.Tally.{AnswersAt};

    ghost answers = { λ stop event answer. AnswersAt (Test.post stop.test) event answer };
}

impl Stop {
    /// Keeps a test that may be called on every event.
    pub fn new(test: Test) -> Stop
        requires { Test.IsAlwaysCallable test }
        ensures { result.test ≡ test }
    {
        Stop { test }
    }

    /// What the test answers at an event. Takes no memory.
    pub fn asks(&self, event: &Event) -> bool
        ensures { ⟦<Stop as Answers>⟧.answers self.now event.now result }
    {
        (self.test)(event)
    }
}
