//! The steps of the protocol on plain memory. Each reads or changes one word, and moves the
//! thread that takes it. Where the thread has to wait, the step answers why.
ghost use Rattle.std.specs.Prelude.{◌≡◌, ◌<◌, ◌==◌, ℕ, List, [], IsFalse, Some, None};
ghost use Rattle.octet_model.specs.declared.event.Mark.TheVariants.{Join};
ghost use Rattle.octet_model.specs.declared.event.Event.TheVariants.{Marked};
ghost use Rattle.octet_state.specs.declared.phase.Phase.TheVariants.{Want, Pass, FenceDue, Sharing};
ghost use Rattle.octet_state.specs.declared.phase.Due.TheVariants.{Glance};
ghost use Rattle.octet_state.specs.declared.state_word.StateWord.TheVariants.{RdEx};
ghost use Rattle.octet_state.specs.declared.why.Why.TheVariants.{Changed};
ghost use Rattle.octet_state.specs.State.{thread_of, status_of, state_of, now};
ghost use Rattle.octet_state.specs.Table.{is_changed_by};
ghost use Rattle.octet_state.specs.Words.{packed_state, FitsStateWord, FitsStatusWord};
ghost use Rattle.octet_state.specs.Steps.{ToGlance, ToAnswer, ToBlock, ToUnblock, ToAsk, ToLook, ToLoad, ToRead, ToWrite, ToBump, ToClaim, ToSettle, ToDraw, ToFence, ToRaise, ToShare, moved, done_of, shown, with_status, told};
ghost use Rattle.octet_machine.specs.Memory.{held, shape, thread_here, waits_here, with_thread, with_event, IsClaimOf, IsThread, IsObject, HasRoom, Becomes, TakesStep};

use crate::memory::{Memory, ProtocolThread};
use octet_model::{Event, Mark};
use octet_state::{Due, Mode, Phase, StateWord, StatusWord, Why, decide};

impl Memory {
    // Swaps the thread's own status.
    fn show(&mut self, me: u8, blocked: bool)
        requires { IsThread (shape self.old) me }
        ensures { Becomes (λ s. with_status s me (shown blocked (now s me))) self.old self.new }
    {
        let upto = self.now(me);
        self.set_status(me, StatusWord::shown(blocked, upto));
    }

    /// A safe point: the thread looks whether it was asked.
    pub(crate) fn glance(&mut self, me: u8)
        requires thread { IsThread (shape self.old) me }
        requires fits { FitsStatusWord (status_of (held [] self.old) me) }
        ensures { TakesStep ToGlance me self.old self.new }
    {
        let status = self.status(me);
        let phase = self.thread(me).phase;
        self.move_to(me, phase, status.due());
    }

    /// Answers all that have asked.
    pub(crate) fn answer(&mut self, me: u8)
        requires { IsThread (shape self.old) me }
        ensures { TakesStep ToAnswer me self.old self.new }
    {
        self.show(me, false);
        let phase = self.thread(me).phase;
        self.move_to(me, phase, Due::Nothing);
    }

    /// Marks the thread blocked, at its end or for a while.
    pub(crate) fn block(&mut self, me: u8, ends: bool)
        requires { IsThread (shape self.old) me }
        ensures { TakesStep (ToBlock ends) me self.old self.new }
    {
        self.show(me, true);
        self.move_to(me, Phase::blocked_in(ends), Due::Nothing);
    }

    /// Marks the thread running.
    pub(crate) fn unblock(&mut self, me: u8)
        requires { IsThread (shape self.old) me }
        ensures { TakesStep ToUnblock me self.old self.new }
    {
        self.show(me, false);
        self.move_to(me, Phase::Idle, Due::Nothing);
    }

    // Puts a Join into the thread's journal.
    fn join(&mut self, me: u8, from: u8, upto: u64)
        requires thread { IsThread (shape self.old) me }
        requires room { HasRoom self.old me }
        ensures { Becomes (λ s. with_event s me (Marked (Join from upto))) self.old self.new }
    {
        let mark = Mark::Join { from, upto };
        self.append(me, Event::Marked { mark });
    }

    /// Asks a thread; where that is blocked, it has answered.
    pub(crate) fn ask(&mut self, me: u8, whom: u8) -> Option<Why>
        requires thread { IsThread (shape self.old) me }
        requires whom { IsThread (shape self.old) whom }
        requires room { HasRoom self.old me }
        requires fits { FitsStatusWord (status_of (held [] self.old) whom) }
        requires few { done_of (thread_here self.old me).phase < 255 }
        ensures step { TakesStep (ToAsk whom) me self.old self.new }
        ensures waits { result ≡ waits_here (ToAsk whom) me self.old }
    {
        let status = self.status(whom);
        let phase = self.thread(me).phase;
        let asked = status.asked_by(me);
        if status.blocked {
            self.join(me, whom, status.upto);
            self.set_status(whom, asked);
            self.move_to(me, phase.one_done(), Due::Nothing);
            return None;
        }
        self.set_status(whom, asked);
        self.move_to(me, phase.one_asked(), Due::Glance);
        Some(Why::Unanswered {
            by: whom,
            word: asked.pack(),
        })
    }

    /// Looks whether a thread that was asked has answered.
    pub(crate) fn look(&mut self, me: u8, whom: u8) -> Option<Why>
        requires thread { IsThread (shape self.old) me }
        requires whom { IsThread (shape self.old) whom }
        requires room { HasRoom self.old me }
        requires fits { FitsStatusWord (status_of (held [] self.old) whom) }
        requires few { done_of (thread_here self.old me).phase < 255 }
        ensures step { TakesStep (ToLook whom) me self.old self.new }
        ensures waits { result ≡ waits_here (ToLook whom) me self.old }
    {
        let status = self.status(whom);
        let phase = self.thread(me).phase;
        if status.answers(me) {
            self.join(me, whom, status.upto);
            self.move_to(me, phase.one_done(), Due::Nothing);
            return None;
        }
        self.move_to(me, phase, Due::Glance);
        Some(Why::Unanswered {
            by: whom,
            word: status.pack(),
        })
    }

    /// Loads the state of an object that the thread wants.
    pub(crate) fn load(&mut self, me: u8, object: u16, mode: Mode) -> Option<Why>
        requires thread { IsThread (shape self.old) me }
        requires object { IsObject (shape self.old) object }
        requires fits { FitsStateWord (state_of (held [] self.old) object) }
        requires by_others { IsFalse (is_changed_by (state_of (held [] self.old) object) me) }
        ensures step { TakesStep (ToLoad object mode) me self.old self.new }
        ensures waits { result ≡ waits_here (ToLoad object mode) me self.old }
    {
        let state = self.state(object);
        let word = state.pack();
        let count = self.thread(me).count;
        let act = decide(&state, me, &mode, count);
        let (phase, due) = act.after_load(&state, object, mode);
        self.move_to(me, phase, due);
        act.held_by(word)
    }

    /// Reads the cell that the thread may read.
    pub(crate) fn read(&mut self, me: u8, object: u16) -> u64
        requires thread { IsThread (shape self.old) me }
        requires object { IsObject (shape self.old) object }
        requires room { HasRoom self.old me }
        requires phase { (thread_here self.old me).phase ≡ Pass object Mode.Read }
        ensures step { TakesStep ToRead me self.old self.new }
        ensures told { result ≡ told ToRead me (held [] self.old) }
    {
        let value = self.cells[object as usize];
        self.append(me, Event::Read { object, value });
        self.move_to(me, Phase::Idle, Due::Nothing);
        value
    }

    /// Writes the cell that the thread may write.
    pub(crate) fn write(&mut self, me: u8, object: u16, value: u64)
        requires thread { IsThread (shape self.old) me }
        requires object { IsObject (shape self.old) object }
        requires room { HasRoom self.old me }
        requires phase { (thread_here self.old me).phase ≡ Pass object Mode.Write }
        ensures { TakesStep (ToWrite value) me self.old self.new }
    {
        self.append(me, Event::Write { object, value });
        self.cells[object as usize] = value;
        self.move_to(me, Phase::Idle, Due::Nothing);
    }

    /// Adds to the cell that the thread may update.
    pub(crate) fn bump(&mut self, me: u8, object: u16, amount: u64)
        requires thread { IsThread (shape self.old) me }
        requires object { IsObject (shape self.old) object }
        requires room { HasRoom self.old me }
        requires phase { (thread_here self.old me).phase ≡ Pass object Mode.Update }
        ensures { TakesStep (ToBump amount) me self.old self.new }
    {
        let before = self.cells[object as usize];
        let after = before.wrapping_add(amount);
        let update = Event::Update {
            object,
            before,
            after,
        };
        self.append(me, update);
        self.cells[object as usize] = after;
        self.move_to(me, Phase::Idle, Due::Nothing);
    }

    // The word of an object's state, and whether it is still that of the state that was loaded.
    fn finds(&self, object: u16, seen: StateWord) -> (u64, bool)
        requires object { IsObject (shape self.now) object }
        requires fits { FitsStateWord (state_of (held [] self.now) object) }
        requires seen { FitsStateWord seen }
        ensures word { result.0 ≡ packed_state (state_of (held [] self.now) object) }
        ensures same { result.1 ≡ (packed_state (state_of (held [] self.now) object) == packed_state seen) }
    {
        let found = self.state(object).pack();
        (found, found == seen.pack())
    }

    // An exchange has found another word: the thread has to load anew.
    fn lose(&mut self, me: u8, object: u16, mode: Mode, seen: StateWord, found: u64) -> Option<Why>
        requires thread { IsThread (shape self.old) me }
        requires fits { FitsStateWord seen }
        ensures state { Becomes (λ s. with_thread s me (moved (Want object mode None) Glance (thread_of s me))) self.old self.new }
        ensures why { result ≡ Some (Changed (packed_state seen) found) }
    {
        let word = seen.pack();
        let seen = None;
        self.move_to(me, Phase::Want { object, mode, seen }, Due::Glance);
        Some(Why::Changed { seen: word, found })
    }

    /// Takes the object in the state that was loaded.
    pub(crate) fn claim(&mut self, me: u8, object: u16, mode: Mode, seen: StateWord) -> Option<Why>
        requires thread { IsThread (shape self.old) me }
        requires object { IsObject (shape self.old) object }
        requires fits { FitsStateWord (state_of (held [] self.old) object) }
        requires seen { FitsStateWord seen }
        requires phase { (thread_here self.old me).phase ≡ Want object mode (Some seen) }
        ensures step { TakesStep ToClaim me self.old self.new }
        ensures waits { result ≡ waits_here ToClaim me self.old }
    {
        let (found, is_same) = self.finds(object, seen);
        if !is_same {
            return self.lose(me, object, mode, seen, found);
        }
        self.set_state(object, StateWord::claiming(me, mode));
        let phase = Phase::Claimed {
            object,
            mode,
            prior: seen,
            done: 0,
            asked: false,
        };
        self.move_to(me, phase, Due::Nothing);
        None
    }

    /// Makes the thread's read-exclusive object write-exclusive.
    pub(crate) fn raise(&mut self, me: u8, object: u16, mode: Mode, seen: StateWord) -> Option<Why>
        requires thread { IsThread (shape self.old) me }
        requires object { IsObject (shape self.old) object }
        requires fits { FitsStateWord (state_of (held [] self.old) object) }
        requires seen { FitsStateWord seen }
        requires phase { (thread_here self.old me).phase ≡ Want object mode (Some seen) }
        ensures step { TakesStep ToRaise me self.old self.new }
        ensures waits { result ≡ waits_here ToRaise me self.old }
    {
        let (found, is_same) = self.finds(object, seen);
        if !is_same {
            return self.lose(me, object, mode, seen, found);
        }
        self.set_state(object, StateWord::WrEx { owner: me });
        self.move_to(me, Phase::Pass { object, mode }, Due::Nothing);
        None
    }

    /// Begins to make read-shared an object that was read-exclusive of `owner`, since its first
    /// `upto` events.
    pub(crate) fn share(
        &mut self,
        me: u8,
        object: u16,
        mode: Mode,
        owner: u8,
        upto: u64,
    ) -> Option<Why>
        requires thread { IsThread (shape self.old) me }
        requires object { IsObject (shape self.old) object }
        requires room { HasRoom self.old me }
        requires fits { FitsStateWord (state_of (held [] self.old) object) }
        requires seen { FitsStateWord (RdEx owner upto) }
        requires phase { (thread_here self.old me).phase ≡ Want object mode (Some (RdEx owner upto)) }
        ensures step { TakesStep ToShare me self.old self.new }
        ensures waits { result ≡ waits_here ToShare me self.old }
    {
        let seen = StateWord::RdEx { owner, upto };
        let (found, is_same) = self.finds(object, seen);
        if !is_same {
            return self.lose(me, object, mode, seen, found);
        }
        self.join(me, owner, upto);
        self.set_state(object, StateWord::ShInt { by: me });
        let drawn = None;
        self.move_to(me, Phase::Sharing { object, drawn }, Due::Nothing);
        None
    }

    /// Settles an object of which all whom the thread has asked are done.
    pub(crate) fn settle_claim(&mut self, me: u8, object: u16, mode: Mode)
        requires thread { IsThread (shape self.old) me }
        requires object { IsObject (shape self.old) object }
        requires phase { IsClaimOf object mode (thread_here self.old me).phase }
        ensures { TakesStep ToSettle me self.old self.new }
    {
        let events = self.now(me);
        self.set_state(object, StateWord::owning(me, events, mode));
        self.move_to(me, Phase::Pass { object, mode }, Due::Nothing);
    }

    /// Settles an object for which the thread has drawn this number.
    pub(crate) fn settle_share(&mut self, me: u8, object: u16, number: u64)
        requires thread { IsThread (shape self.old) me }
        requires object { IsObject (shape self.old) object }
        requires phase { (thread_here self.old me).phase ≡ Sharing object (Some number) }
        ensures { TakesStep ToSettle me self.old self.new }
    {
        self.set_state(object, StateWord::RdSh { number });
        let mode = Mode::Read;
        self.move_to(me, Phase::Pass { object, mode }, Due::Nothing);
    }

    /// Draws the next number for the object.
    pub(crate) fn draw(&mut self, me: u8, object: u16)
        requires thread { IsThread (shape self.old) me }
        requires room { HasRoom self.old me }
        requires phase { (thread_here self.old me).phase ≡ Sharing object None }
        requires small { self.old.counter < u64.MAX }
        ensures { TakesStep ToDraw me self.old self.new }
    {
        let number = self.counter + 1;
        let mark = Mark::Draw { number };
        self.append(me, Event::Marked { mark });
        self.counter = number;
        let phase = Phase::Sharing {
            object,
            drawn: Some(number),
        };
        let due = Due::Nothing;
        let count = number;
        self.set_thread(me, ProtocolThread { phase, due, count });
    }

    /// Loads the counter before a read of an object whose draw the thread does not know of.
    pub(crate) fn fence(&mut self, me: u8, object: u16)
        requires thread { IsThread (shape self.old) me }
        requires room { HasRoom self.old me }
        requires phase { (n : ℕ) × ((thread_here self.old me).phase ≡ FenceDue object n) }
        ensures { TakesStep ToFence me self.old self.new }
    {
        let number = self.counter;
        let mark = Mark::Fence { number };
        self.append(me, Event::Marked { mark });
        let mode = Mode::Read;
        let phase = Phase::Pass { object, mode };
        let due = Due::Nothing;
        let count = number;
        self.set_thread(me, ProtocolThread { phase, due, count });
    }
}
