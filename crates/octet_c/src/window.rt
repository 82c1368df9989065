//! The calls by which the last accesses of a run of any length become a script.
ghost use Rattle.std.specs.Prelude.{◌≡◌, IfOk};
ghost use Rattle.octet_c.specs.Sessions.{IsHeld, IsLeftOf};
ghost use Rattle.octet_c.specs.Windows.{BeginsSearch, SearchesFor, SearchesBy, BeginsWindow, WindowsBy, PutsMade};

use crate::handle::Handle;
use crate::held::Held;
use crate::status::{Fault, NO_MEMORY, NO_RECORD, NO_STREAM, READY};
use octet_host_long::ClosedAgain;
use octet_model::MAX_THREADS;
use octet_tail::{Found, Search, Texts};
use std::alloc::Global;

/// The last accesses of a run on their way to a script.
#[derive(Drop)]
pub enum Window {
    Search(Search),
    Found(Found),
    Made(Texts),
}

// Puts what was made behind the handle.
fn put_made(alloc: Global, handle: &mut Handle, made: Result<Held, Fault>) -> i32
    requires { IfOk made IsHeld }
    ensures { PutsMade made handle.old result handle.new }
{
    let held = match made {
        Ok(held) => held,
        Err(fault) => return fault.status(),
    };
    match Box::new(alloc, held) {
        Ok(held) => {
            drop(handle.take(alloc));
            handle.put(held);
            READY
        }
        Err(_) => NO_MEMORY,
    }
}

// The search for the last accesses that were noted. The notes are taken for it.
fn search_of(alloc: Global, again: &mut ClosedAgain) -> Result<Held, Fault>
    requires { IsLeftOf again.old }
    ensures searches { SearchesFor again.old result again.new }
    ensures good { IfOk result IsHeld }
    ensures left { IsLeftOf again.new }
{
    let threads = again.made.len();
    if again.last == 0 || threads == 0 || threads > MAX_THREADS {
        return Err(Fault::NoNotes);
    }
    let last = u64::from(again.last);
    let made = again.take_made(alloc);
    match Search::new(alloc, made, last) {
        Ok(search) => Ok(Held::Window(Window::Search(search))),
        Err(_) => Err(Fault::OutOfMemory),
    }
}

// The same by what is held, if it is what such a run has left.
fn begun(alloc: Global, held: &mut Held) -> Result<Held, Fault>
    requires { IsHeld held.old }
    ensures begins { BeginsSearch held.old result held.new }
    ensures good { IfOk result IsHeld }
    ensures left { IsHeld held.new }
{
    match held {
        Held::Again(again) => search_of(alloc, again),
        _ => Err(Fault::OtherKind),
    }
}

/// Begins the search for the last accesses that the threads of a run have noted which was made again, by its record, and puts
/// it behind the handle `search`; what that held is freed. The notes leave the record.
#[unsafe(no_mangle)]
pub extern "C" fn octet_search(alloc: Global, kept: &mut Handle, search: &mut Handle) -> i32
    ensures { SearchesBy kept.old.held search.old result kept.new.held search.new }
{
    match kept.take(alloc) {
        None => NO_RECORD,
        Some(mut held) => {
            let made = begun(alloc, &mut held);
            kept.put(held);
            put_made(alloc, search, made)
        }
    }
}

// The script of what was found, and its log, if something is.
fn window_of(alloc: Global, held: &Held) -> Result<Held, Fault>
    requires { IsHeld held.now }
    ensures windows { BeginsWindow held.now result }
    ensures good { IfOk result IsHeld }
{
    let Held::Window(Window::Found(found)) = held else {
        return Err(Fault::OtherKind);
    };
    match found.window(alloc) {
        Ok(texts) => Ok(Held::Window(Window::Made(texts))),
        Err(fault) => Err(Fault::from(fault)),
    }
}

/// Puts the script of the last accesses that `search` has found, with its log, behind the handle `window`; what it held is
/// freed.
#[unsafe(no_mangle)]
pub extern "C" fn octet_window(alloc: Global, search: &mut Handle, window: &mut Handle) -> i32
    ensures keeps { search.new.held ≡ search.old.held }
    ensures windows { WindowsBy search.old.held window.old result window.new }
{
    match search.take(alloc) {
        None => NO_STREAM,
        Some(held) => {
            let made = window_of(alloc, &held);
            search.put(held);
            put_made(alloc, window, made)
        }
    }
}
