//! The calls of a player: whether an access is next, and one step.
ghost use Rattle.std.specs.Prelude.{◌≡◌, ◌<◌};
ghost use Rattle.octet_model.specs.Thread.{added};
ghost use Rattle.octet_model.specs.Machine.{Wants, MakeMark, MakeRead, MakeWrite, MakeUpdate};
ghost use Rattle.octet_model.specs.Orders.{thread_log_of};
ghost use Rattle.octet_parallel.specs.declared.fate.Fate.TheVariants.{Playing as StillPlaying, Amiss as GoneAmiss, Stopped};
ghost use Rattle.octet_parallel.specs.State.{stop_number};
ghost use Rattle.octet_parallel.specs.Steps.{ToLook, ToStop};
ghost use Rattle.octet_parallel.specs.Draws.{IsWhereDrawn, IsNeedOf};
ghost use Rattle.octet_parallel.specs.Views.{next_in};
ghost use Rattle.octet_parallel.specs.Rule.{Steps, stop_found};
ghost use Rattle.octet_parallel.specs.Conditions.{HasFound, StopsIn};
ghost use Rattle.octet_parallel.specs.Calls.{view_of, log_in, IsPlayerOf, IsNextStep, TellsAccess, StepsTo, PlaysTo, EndsBy, MarkMade};

use crate::draws::PlayerEvents;
use crate::fate::Fate;
use crate::field::Field;
use crate::played::Played;
use crate::player::{Player, note};
use crate::words::STOP_NUMBER;
use octet_model::{Event, Mark, ThreadLog};
use octet_replay::NextStep;

impl Field {
    // The log of a player's thread.
    fn own_log(&self, player: &Player) -> &ThreadLog
        requires { IsPlayerOf self.now player.now }
        ensures { result.now ≡ thread_log_of (log_in self.now).threads player.now.number }
    {
        &self.log.threads.as_slice()[player.number as usize]
    }

    /// The number of accesses that the player has made, where its next event by the log is an access
    /// and its thread demands one.
    pub fn next_access(&self, player: &mut Player) -> Option<u32>
        requires own { IsPlayerOf self.now player.old }
        ensures same { player.new ≡ player.old }
        ensures tells { TellsAccess (view_of player.old) result }
    {
        match player.replay.next(self.own_log(player)) {
            NextStep::Read { .. } | NextStep::Write { .. } | NextStep::Bump { .. } => {
                Some(player.replay.accesses())
            }
            NextStep::Mark { .. } | NextStep::Finished | NextStep::NothingFits => None,
        }
    }

    /// What is next for the player by the log.
    #[inline(always)]
    pub(crate) fn next_step(&self, player: &Player) -> NextStep
        requires { IsPlayerOf self.now player.now }
        ensures { IsNextStep self.now player.now result }
    {
        player.replay.next(self.own_log(player))
    }

    /// Makes the player's next event, unless it has to wait for another player, has nothing left to
    /// make, is amiss, or finds that another player is amiss or stopped. Takes at most two atomic
    /// steps, no memory and no lock, and waits for nobody.
    pub fn step(&self, player: &mut Player) -> Played
        requires own { IsPlayerOf self.now player.old }
        ensures own { IsPlayerOf self.now player.new }
        ensures step { StepsTo (view_of player.old) result (view_of player.new) }
        ensures number { (view_of player.new).number ≡ (view_of player.old).number }
        ensures ends { EndsBy result (view_of player.new) }
    {
        let next = self.next_step(player);
        self.take(player, next)
    }

    /// The same, for a caller that knows what is next.
    #[inline(always)]
    pub(crate) fn take(&self, player: &mut Player, next: NextStep) -> Played
        requires own { IsPlayerOf self.now player.old }
        requires next { IsNextStep self.now player.old next }
        ensures own { IsPlayerOf self.now player.new }
        ensures step { StepsTo (view_of player.old) result (view_of player.new) }
        ensures number { (view_of player.new).number ≡ (view_of player.old).number }
        ensures ends { EndsBy result (view_of player.new) }
    {
        match player.fate {
            Fate::Amiss => Played::Amiss,
            Fate::Stopped { whom } => Played::Stopped { whom },
            Fate::Playing => self.play(player, next),
        }
    }

    // One step of a player that plays.
    fn play(&self, player: &mut Player, next: NextStep) -> Played
        requires own { IsPlayerOf self.now player.old }
        requires plays { player.old.fate ≡ StillPlaying }
        requires next { IsNextStep self.now player.old next }
        ensures own { IsPlayerOf self.now player.new }
        ensures step { PlaysTo (view_of player.old) result (view_of player.new) }
    {
        match next {
            NextStep::Mark { mark } => self.play_mark(player, mark),
            NextStep::Read { object } => self.read(player, object),
            NextStep::Write { object, value } => self.write(player, object, value),
            NextStep::Bump { object, amount } => self.bump(player, object, amount),
            NextStep::Finished => Played::Through,
            NextStep::NothingFits => self.go_amiss(player),
        }
    }

    fn read(&self, player: &mut Player, object: u16) -> Played
        requires own { IsPlayerOf self.now player.old }
        requires plays { player.old.fate ≡ StillPlaying }
        requires next { next_in (view_of player.old) ≡ Wants (MakeRead object) }
        requires object { object < self.now.words.objects }
        ensures own { IsPlayerOf self.now player.new }
        ensures step { PlaysTo (view_of player.old) result (view_of player.new) }
    {
        let value = self.words.read(&mut player.seat, object);
        note(
            &mut player.replay,
            &mut player.journal,
            Event::Read { object, value },
        );
        self.words.count(&mut player.seat, player.number, player.journal.len() as u64);
        Played::Made
    }

    fn write(&self, player: &mut Player, object: u16, value: u64) -> Played
        requires own { IsPlayerOf self.now player.old }
        requires plays { player.old.fate ≡ StillPlaying }
        requires next { next_in (view_of player.old) ≡ Wants (MakeWrite object value) }
        requires object { object < self.now.words.objects }
        ensures own { IsPlayerOf self.now player.new }
        ensures step { PlaysTo (view_of player.old) result (view_of player.new) }
    {
        let _before = self.words.write(&mut player.seat, object, value);
        note(
            &mut player.replay,
            &mut player.journal,
            Event::Write { object, value },
        );
        self.words.count(&mut player.seat, player.number, player.journal.len() as u64);
        Played::Made
    }

    fn bump(&self, player: &mut Player, object: u16, amount: u64) -> Played
        requires own { IsPlayerOf self.now player.old }
        requires plays { player.old.fate ≡ StillPlaying }
        requires next { next_in (view_of player.old) ≡ Wants (MakeUpdate object (added amount)) }
        requires object { object < self.now.words.objects }
        ensures own { IsPlayerOf self.now player.new }
        ensures step { PlaysTo (view_of player.old) result (view_of player.new) }
    {
        let before = self.words.bump(&mut player.seat, object, amount);
        let after = before.wrapping_add(amount);
        let event = Event::Update {
            object,
            before,
            after,
        };
        note(&mut player.replay, &mut player.journal, event);
        self.words.count(&mut player.seat, player.number, player.journal.len() as u64);
        Played::Made
    }

    fn go_amiss(&self, player: &mut Player) -> Played
        requires own { IsPlayerOf self.now player.old }
        requires plays { player.old.fate ≡ StillPlaying }
        requires why { StopsIn (view_of player.old) GoneAmiss }
        ensures own { IsPlayerOf self.now player.new }
        ensures step { PlaysTo (view_of player.old) result (view_of player.new) }
    {
        self.words.go_amiss(&mut player.seat, player.number);
        player.fate = Fate::Amiss;
        Played::Amiss
    }

    // Where the draw of a number stands.
    fn draw(&self, number: u64) -> Option<PlayerEvents>
        requires { 0 < number }
        ensures { IsWhereDrawn (log_in self.now).threads number result }
    {
        let place = (number - 1) as usize;
        if place >= self.draws.len() {
            return None;
        }
        let draw = self.draws[place];
        if draw.events == 0 {
            return None;
        }
        Some(draw)
    }

    // What a mark of the player's needs of another one.
    fn need(&self, thread: u8, mark: Mark) -> Option<PlayerEvents>
        ensures { IsNeedOf (log_in self.now).threads thread mark result }
    {
        let needed = match mark {
            Mark::Join { from, upto } => PlayerEvents {
                whom: from,
                events: upto,
            },
            Mark::Draw { number } => {
                if number < 2 {
                    return None;
                }
                self.draw(number - 1)?
            }
            Mark::Fence { number } => {
                if number == 0 {
                    return None;
                }
                self.draw(number)?
            }
        };
        if needed.whom == thread {
            return None;
        }
        Some(needed)
    }

    // Looks how far another player is.
    fn look(&self, player: &mut Player, whom: u8) -> u64
        requires own { IsPlayerOf self.now player.old }
        requires plays { player.old.fate ≡ StillPlaying }
        requires whom { whom < self.now.words.players }
        ensures own { IsPlayerOf self.now player.new }
        ensures plays { player.new.fate ≡ StillPlaying }
        ensures step { Steps (ToLook whom) (view_of player.old) result (view_of player.new) }
    {
        self.words.look(&mut player.seat, whom)
    }

    // Makes a mark of which all that it needs was found.
    fn make_mark(&self, player: &mut Player, mark: Mark)
        requires own { IsPlayerOf self.now player.old }
        requires plays { player.old.fate ≡ StillPlaying }
        requires next { next_in (view_of player.old) ≡ Wants (MakeMark mark) }
        requires found { HasFound (view_of player.old) mark }
        ensures own { IsPlayerOf self.now player.new }
        ensures made { MarkMade (view_of player.old) mark (view_of player.new) }
    {
        let events = player.journal.len() as u64 + 1;
        self.words.mark(&mut player.seat, player.number, events);
        note(
            &mut player.replay,
            &mut player.journal,
            Event::Marked { mark },
        );
    }

    // Stops a player whose last look found the stop number.
    fn stop(&self, player: &mut Player, whom: u8)
        requires own { IsPlayerOf self.now player.old }
        requires plays { player.old.fate ≡ StillPlaying }
        requires last { stop_found (view_of player.old) ≡ whom }
        requires why { StopsIn (view_of player.old) (Stopped whom) }
        ensures own { IsPlayerOf self.now player.new }
        ensures step { Steps (ToStop (Stopped whom)) (view_of player.old) stop_number (view_of player.new) }
    {
        self.words.stop(&mut player.seat, player.number);
        player.fate = Fate::Stopped { whom };
    }

    // A mark is next: looks whether the events that it needs were made.
    fn play_mark(&self, player: &mut Player, mark: Mark) -> Played
        requires own { IsPlayerOf self.now player.old }
        requires plays { player.old.fate ≡ StillPlaying }
        requires next { next_in (view_of player.old) ≡ Wants (MakeMark mark) }
        ensures own { IsPlayerOf self.now player.new }
        ensures step { PlaysTo (view_of player.old) result (view_of player.new) }
    {
        let Some(needed) = self.need(player.number, mark) else {
            self.make_mark(player, mark);
            return Played::Made;
        };
        let found = self.look(player, needed.whom);
        if found == STOP_NUMBER {
            self.stop(player, needed.whom);
            return Played::Stopped { whom: needed.whom };
        }
        if found < needed.events {
            return Played::Waits {
                whom: needed.whom,
                needs: needed.events,
                found,
            };
        }
        self.make_mark(player, mark);
        Played::Made
    }
}
