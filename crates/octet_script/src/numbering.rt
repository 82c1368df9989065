//! On which line of its text each command of a script stands.
ghost use Rattle.std.specs.Prelude.{◌≡◌, ◌∷◌, ℕ, [], List, drop, length, IfOk, OnOk};
ghost use Rattle.octet_script.specs.Words.{texts};
ghost use Rattle.octet_script.specs.LineNumbers.{begin_thread, command_lines};
ghost use Rattle.octet_script.specs.Numbering.{numbers_with, TakesIn};

use crate::words::{cut_line, split_words};
use octet_model::{List, OutOfMemory};
use std::alloc::Global;

// The lines so far: whether a `thread` came, the commands of the threads before the present one,
// and the present one's.
#[derive(Drop)]
struct Numbering {
    started: bool,
    threads: List<List<usize>>,
    present: List<usize>,
}

// Whether words begin a thread.
fn begin_thread(words: &[&[u8]]) -> bool
    ensures { result ≡ begin_thread (texts words.now) }
{
    let Some((first, _)) = words.split_first() else {
        return false;
    };
    let thread: &[u8] = b"thread";
    *first == thread
}

impl Numbering {
    fn new(alloc: Global) -> Numbering
        ensures { (parts : List (List ℕ)) → numbers_with result parts ≡ drop 1 parts }
    {
        Numbering {
            started: false,
            threads: List::new(alloc),
            present: List::new(alloc),
        }
    }

    // Takes in the line of this number.
    fn take_in(&mut self, alloc: Global, number: usize, words: &[&[u8]]) -> Result<(), OutOfMemory>
        ensures { OnOk result (TakesIn self.old number (texts words.now) self.new) }
    {
        if begin_thread(words) {
            return self.begin(alloc);
        }
        if self.started && !words.is_empty() {
            self.present.push(number)?;
        }
        Ok(())
    }

    // Begins the next thread, and keeps the present one.
    fn begin(&mut self, alloc: Global) -> Result<(), OutOfMemory>
        ensures { OnOk result ((part : List ℕ) (parts : List (List ℕ)) → numbers_with self.new (part ∷ parts) ≡ numbers_with self.old ([] ∷ part ∷ parts)) }
    {
        let present = std::mem::replace(&mut self.present, List::new(alloc));
        if self.started {
            self.threads.push(present)?;
        }
        self.started = true;
        Ok(())
    }

    // The numbers, where no line is to come.
    fn finish(self) -> Result<List<List<usize>>, OutOfMemory>
        ensures { IfOk result (λ lines. lines ≡ numbers_with self ([] ∷ [])) }
    {
        let mut threads = self.threads;
        if self.started {
            threads.push(self.present)?;
        }
        Ok(threads)
    }
}

/// Of each thread that a text begins, the numbers of its commands' lines, counted from 1. Takes
/// memory in proportion to the text.
pub fn command_lines(alloc: Global, text: &[u8]) -> Result<List<List<usize>>, OutOfMemory>
    ensures { IfOk result (λ lines. lines ≡ command_lines text.now) }
{
    let mut numbering = Numbering::new(alloc);
    let mut words = Vec::new(alloc);
    let mut number = 1;
    let mut rest = text;
    while let Some((line, after)) = cut_line(rest) {
        split_words(line, &mut words)?;
        numbering.take_in(alloc, number, words.as_slice())?;
        number += 1;
        rest = after;
    }
    split_words(rest, &mut words)?;
    numbering.take_in(alloc, number, words.as_slice())?;
    numbering.finish()
}
