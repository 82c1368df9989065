//! The rules by which lines are judged and added to what was said before.
ghost use Rattle.std.specs.Prelude.{◌≡◌, ◌≤◌, ◌∷◌, None, IfErr, OnOk, Ok, length};
ghost use Rattle.octet_model.specs.Name.{IsName};
ghost use Rattle.octet_script.specs.Words.{texts};
ghost use Rattle.octet_script.specs.Spelling.{contents, object_named};
ghost use Rattle.octet_script.specs.Parsing.{start, Gives, is_misplaced, with_fuel, with_object, with_command, all_closed, closed, added, threads_of, names_of, fuel_of, with_thread, judged_arguments, judged_line, judged_end};
ghost use Rattle.octet_script.specs.Building.{draft, with_present_thread, IsValidSoFar};

use crate::builder::Builder;
use crate::keyword::Keyword;
use crate::line::Line;
use crate::objects::Objects;
use crate::{ScriptCause, ScriptFault};
use octet_model::{Command, DEFAULT_FUEL, List, MAX_FUEL, MAX_OBJECTS, MAX_THREADS, Script};
use std::alloc::Global;

impl<'a> Builder<'a> {
    pub(crate) fn new(alloc: Global) -> Builder<'a>
        ensures { draft result ≡ start }
    {
        Builder {
            fuel: None,
            objects: Objects::new(alloc),
            started: false,
            threads: List::new(alloc),
            commands: List::new(alloc),
            openers: Vec::new(alloc),
        }
    }

    /// Judges a line, and adds what it says.
    pub(crate) fn judge(&mut self, alloc: Global, line: Line<'_, 'a>) -> Result<(), ScriptFault>
        ensures { Gives (λ _. draft self.new) result (judged_line (draft self.old) line.entry.number (texts line.entry.words.now)) }
    {
        let Some((first, _)) = line.words.split_first() else {
            return Ok(());
        };
        let Some(keyword) = Keyword::of(first) else {
            return Err(line.refused(ScriptCause::UnknownWord));
        };
        if line.words.len() != keyword.word_count() {
            return Err(line.refused(ScriptCause::WrongCount));
        }
        if self.misplaces(keyword) {
            return Err(line.refused(ScriptCause::Misplaced));
        }
        self.accept(alloc, line, keyword)
    }

    fn misplaces(&self, keyword: Keyword) -> bool
        ensures { result ≡ is_misplaced self.now.started keyword }
    {
        match keyword {
            Keyword::Fuel | Keyword::Object => self.started,
            Keyword::Thread => false,
            Keyword::Command(_) => !self.started,
        }
    }

    // Judges a line's arguments, and adds what it says.
    fn accept(
        &mut self,
        alloc: Global,
        line: Line<'_, 'a>,
        keyword: Keyword,
    ) -> Result<(), ScriptFault>
        ensures { Gives (λ _. draft self.new) result (judged_arguments (draft self.old) line.entry.number (texts line.entry.words.now) keyword) }
    {
        match keyword {
            Keyword::Fuel => {
                let fuel = line.number_at(1)?;
                self.give_fuel(line, fuel)
            }
            Keyword::Object => {
                let name = line.name_at(&self.objects, 1)?;
                let start = line.number_at(2)?;
                self.declare(line, name, start)
            }
            Keyword::Thread => self.begin_thread(alloc, line),
            Keyword::Command(verb) => {
                let command = line.command(&self.objects, verb)?;
                self.add(line, command)
            }
        }
    }

    fn give_fuel(&mut self, line: Line<'_, 'a>, fuel: u64) -> Result<(), ScriptFault>
        ensures { Gives (λ _. draft self.new) result (with_fuel (draft self.old) line.entry.number fuel) }
    {
        if self.fuel.is_some() || fuel == 0 || fuel > u64::from(MAX_FUEL) {
            return Err(line.refused(ScriptCause::BadFuel));
        }
        self.fuel = Some(fuel as u32);
        Ok(())
    }

    fn declare(&mut self, line: Line<'_, 'a>, name: &'a [u8], start: u64) -> Result<(), ScriptFault>
        requires form { IsName name.now }
        requires fresh { object_named (names_of (draft self.old)) name.now ≡ None }
        ensures { Gives (λ _. draft self.new) result (with_object (draft self.old) line.entry.number name.now start) }
    {
        if self.objects.len() >= MAX_OBJECTS {
            return Err(line.refused(ScriptCause::TooMany));
        }
        self.objects.push(name, start)?;
        Ok(())
    }

    fn add(&mut self, line: Line<'_, 'a>, command: Command) -> Result<(), ScriptFault>
        ensures { Gives (λ _. draft self.new) result (with_command (draft self.old) line.entry.number command) }
    {
        match command {
            Command::Loop { .. } | Command::Branch { .. } => self.open(line, command),
            Command::Close => self.close(line),
            _ => self.push(command),
        }
    }

    fn push(&mut self, command: Command) -> Result<(), ScriptFault>
        ensures { Gives (λ _. draft self.new) result (Ok (added (draft self.old) command (draft self.old).openers)) }
    {
        self.commands.push(command)?;
        Ok(())
    }

    fn open(&mut self, line: Line<'_, 'a>, command: Command) -> Result<(), ScriptFault>
        ensures { Gives (λ _. draft self.new) result (Ok (added (draft self.old) command (line.entry.number ∷ (draft self.old).openers))) }
    {
        self.openers.push(line.number)?;
        self.commands.push(command)?;
        Ok(())
    }

    fn close(&mut self, line: Line<'_, 'a>) -> Result<(), ScriptFault>
        ensures { Gives (λ _. draft self.new) result (closed (draft self.old) line.entry.number (draft self.old).openers) }
    {
        if self.openers.pop().is_none() {
            return Err(line.refused(ScriptCause::EndWithoutOpen));
        }
        self.push(Command::Close)
    }

    fn thread_count(&self) -> usize
        ensures { result ≡ length (threads_of (draft self.now)) }
    {
        if self.started {
            self.threads.len() + 1
        } else {
            self.threads.len()
        }
    }

    fn fuel(&self) -> u32
        ensures value { result ≡ fuel_of (draft self.now) }
        ensures bound { result ≤ MAX_FUEL }
    {
        self.fuel.unwrap_or(DEFAULT_FUEL)
    }

    // Where a `while` or `if` is open, the line of the innermost one is refused.
    fn all_closed(&self) -> Result<(), ScriptFault>
        ensures { Gives (λ _. tt) result (all_closed (draft self.now).openers) }
    {
        match self.openers.as_slice().last() {
            Some(opener) => Err(ScriptFault::Refused {
                line: *opener,
                cause: ScriptCause::Unclosed,
            }),
            None => Ok(()),
        }
    }

    fn begin_thread(&mut self, alloc: Global, line: Line<'_, 'a>) -> Result<(), ScriptFault>
        ensures { Gives (λ _. draft self.new) result (with_thread (draft self.old) line.entry.number) }
    {
        self.all_closed()?;
        let count = self.thread_count();
        if count >= MAX_THREADS {
            return Err(line.refused(ScriptCause::TooMany));
        }
        if (count as u64 + 1) * self.fuel() as u64 > u64::from(MAX_FUEL) {
            return Err(line.refused(ScriptCause::BadFuel));
        }
        self.keep_thread(alloc)?;
        self.started = true;
        Ok(())
    }

    // Keeps the present thread, and makes room for the next.
    fn keep_thread(&mut self, alloc: Global) -> Result<(), ScriptFault>
        requires { length (threads_of (draft self.old)) ≤ MAX_THREADS }
        ensures thread { OnOk result (draft self.new ≡ with_present_thread (draft self.old)) }
        ensures memory { IfErr result (λ e. e ≡ ScriptFault.OutOfMemory) }
    {
        let commands = std::mem::replace(&mut self.commands, List::new(alloc));
        if self.started {
            self.threads.push(commands)?;
        }
        Ok(())
    }

    /// The script, at the end of a text whose last line has this number.
    pub(crate) fn finish(mut self, alloc: Global, last: u32) -> Result<Script, ScriptFault>
        requires { IsValidSoFar (draft self) }
        ensures { Gives contents result (judged_end (draft self.entry) last) }
    {
        self.all_closed()?;
        if !self.started {
            return Err(ScriptFault::Refused {
                line: last,
                cause: ScriptCause::NoThread,
            });
        }
        self.keep_thread(alloc)?;
        let fuel = self.fuel();
        let objects = self.objects.to_list(alloc)?;
        Ok(Script {
            fuel,
            objects,
            threads: self.threads,
        })
    }
}
