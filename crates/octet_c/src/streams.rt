//! The calls by which a run's marks go out and in.
ghost use Rattle.std.specs.Prelude.{◌≡◌, length, IfOk};
ghost use Rattle.octet_marks.specs.declared.piece.Piece.TheVariants as pieces;
ghost use Rattle.octet_marks.specs.Reading.{piece_bytes};
ghost use Rattle.octet_host_long.specs.Opened.{head_with};
ghost use Rattle.octet_c.specs.Long.{IsSize};
ghost use Rattle.octet_c.specs.Sessions.{IsOnTheWay};
ghost use Rattle.octet_c.specs.Streams.{FitsTaken, FitsFault, FitsSearchFault, FeedsSearch, FeedsWindow, FindsWindow, TakesHeld, FeedsInlet, FeedsHeld, EndsInlet, EndsHeld, HeadCopied};

use crate::handle::Handle;
use crate::held::Held;
use crate::long::is_size;
use crate::status::{
    BAD_MARKS, BAD_SIZE, NO_MEMORY, NO_NOTES, NO_ROOM, NO_STREAM, OTHER_KIND, OTHER_RUN, OVER,
    PENDING, READY,
};
use crate::window::Window;
use octet_blocks::{FeedFault, GatherFault};
use octet_host::copy_out;
use octet_host_long::{Inlet, Taken, head_of};
use octet_marks::head;
use octet_model::OutOfMemory;
use octet_tail::{Search, SearchFault};
use std::alloc::Global;

// The bytes that a marks file begins with.
fn head_bytes(
    alloc: Global,
    starts: &[u64],
    threads: u8,
    declared: &[u8],
) -> Result<Vec<u8>, OutOfMemory>
    requires { IsSize threads (length starts.now) }
    ensures { IfOk result (λ bytes. bytes.items ≡ piece_bytes (pieces.Head (head_with threads starts.now declared.now))) }
{
    head(alloc, &head_of(alloc, threads, starts, declared)?)
}

/// Copies as much of what a marks file begins with as there is room for, and says how long it is. Its digest is the SHA-256
/// of the declared bytes.
#[unsafe(no_mangle)]
pub extern "C" fn octet_head(
    alloc: Global,
    starts: &[u64],
    threads: u8,
    declared: &[u8],
    out: &mut [u8],
    length: &mut usize,
) -> i32
    ensures { HeadCopied starts.now threads declared.now result out.old out.new length.old length.new }
{
    if !is_size(usize::from(threads), starts.len()) {
        return BAD_SIZE;
    }
    match head_bytes(alloc, starts, threads, declared) {
        Ok(bytes) => {
            *length = copy_out(bytes.as_slice(), out);
            READY
        }
        Err(_) => NO_MEMORY,
    }
}

// What a stream comes to that gives, with the length if it has one.
fn taken(taken: Result<Taken, GatherFault>, length: &mut usize) -> i32
    ensures { FitsTaken taken result length.old length.new }
{
    match taken {
        Ok(Taken::Copied { length: copied }) => {
            *length = copied;
            READY
        }
        Ok(Taken::NoRoom { length: needed }) => {
            *length = needed;
            NO_ROOM
        }
        Ok(Taken::Waits) => PENDING,
        Ok(Taken::Ended) => OVER,
        Err(GatherFault::Broken) => BAD_MARKS,
        Err(GatherFault::OutOfMemory) => NO_MEMORY,
    }
}

/// Copies the next block of the thread, or its end, and says how long it is: 0 where it was copied, 1 where nothing is whole
/// yet, 2 where the thread's end was taken before.
#[unsafe(no_mangle)]
pub extern "C" fn octet_take(
    alloc: Global,
    stream: &mut Handle,
    out: &mut [u8],
    length: &mut usize,
) -> i32
    ensures { TakesHeld stream.old.held result out.old out.new length.old length.new stream.new.held }
{
    match stream.take(alloc) {
        None => NO_STREAM,
        Some(mut held) => {
            let status = match &mut *held {
                Held::Outlet(outlet) => taken(outlet.take(alloc, out), length),
                _ => OTHER_KIND,
            };
            stream.put(held);
            status
        }
    }
}

// Why bytes are not taken, with the place of the file that is refused if there is one.
fn unfed(fault: FeedFault, place: &mut u64) -> i32
    ensures { FitsFault fault result place.old place.new }
{
    match fault {
        FeedFault::OutOfMemory => NO_MEMORY,
        FeedFault::Refused { at, .. } => {
            *place = at;
            BAD_MARKS
        }
        FeedFault::OtherRun => OTHER_RUN,
        FeedFault::Over => OVER,
    }
}

// Feeds a thread. Tells how many bytes were taken.
fn fed(alloc: Global, inlet: &mut Inlet, bytes: &[u8], taken: &mut u64) -> i32
    ensures { FeedsInlet bytes.now inlet.old result taken.old taken.new inlet.new }
{
    match inlet.feed(alloc, bytes) {
        Ok(count) => {
            *taken = count as u64;
            READY
        }
        Err(fault) => unfed(fault, taken),
    }
}

// The file has no more.
fn fed_all(alloc: Global, inlet: &mut Inlet, at: &mut u64) -> i32
    ensures { EndsInlet inlet.old result at.old at.new inlet.new }
{
    match inlet.end(alloc) {
        Ok(true) => READY,
        Ok(false) => PENDING,
        Err(fault) => unfed(fault, at),
    }
}

// Why a search goes on no more, with the place of the file that is refused if there is one.
fn unsearched(fault: SearchFault, place: &mut u64) -> i32
    ensures { FitsSearchFault fault result place.old place.new }
{
    match fault {
        SearchFault::OutOfMemory => NO_MEMORY,
        SearchFault::Refused { at, .. } => {
            *place = at;
            BAD_MARKS
        }
        SearchFault::ManyEvents => BAD_MARKS,
        SearchFault::NotNoted => NO_NOTES,
        SearchFault::Apart => OTHER_RUN,
    }
}

// Feeds a search. All bytes are taken, or none.
fn searched(alloc: Global, search: &mut Search, bytes: &[u8], taken: &mut u64) -> i32
    ensures { FeedsSearch bytes.now search.old result taken.old taken.new search.new }
{
    match search.feed(alloc, bytes) {
        Ok(()) => {
            *taken = bytes.len() as u64;
            READY
        }
        Err(fault) => unsearched(fault, taken),
    }
}

// What comes of the last accesses is fed, if it is to be.
fn fed_to_window(alloc: Global, window: &mut Window, bytes: &[u8], taken: &mut u64) -> i32
    requires { IsOnTheWay window.old }
    ensures feeds { FeedsWindow bytes.now window.old result taken.old taken.new window.new }
    ensures good { IsOnTheWay window.new }
{
    match window {
        Window::Search(search) => searched(alloc, search, bytes, taken),
        Window::Found(_) | Window::Made(_) => OTHER_KIND,
    }
}

// The file has no more, so a search finds what it can.
fn found(alloc: Global, window: &mut Window, at: &mut u64) -> i32
    requires { IsOnTheWay window.old }
    ensures finds { FindsWindow window.old result at.old at.new window.new }
    ensures good { IsOnTheWay window.new }
{
    let found = match window {
        Window::Search(search) => search.find(alloc),
        _ => return OTHER_KIND,
    };
    match found {
        Ok(found) => {
            *window = Window::Found(found);
            READY
        }
        Err(fault) => unsearched(fault, at),
    }
}

/// Feeds the thread the next bytes of a marks file, and says how many were taken: none where the thread has no room yet.
/// Where the file is refused, `taken` is the place. So is a search fed.
#[unsafe(no_mangle)]
pub extern "C" fn octet_feed(
    alloc: Global,
    stream: &mut Handle,
    bytes: &[u8],
    taken: &mut u64,
) -> i32
    ensures { FeedsHeld bytes.now stream.old.held result taken.old taken.new stream.new.held }
{
    match stream.take(alloc) {
        None => NO_STREAM,
        Some(mut held) => {
            let status = match &mut *held {
                Held::Inlet(inlet) => fed(alloc, inlet, bytes, taken),
                Held::Window(window) => fed_to_window(alloc, window, bytes, taken),
                _ => OTHER_KIND,
            };
            stream.put(held);
            status
        }
    }
}

/// Says that the file has no more: 1 where the thread has no room for what is left, and the call is to be made again. Where
/// the file is refused, `at` is the place. A search finds the window.
#[unsafe(no_mangle)]
pub extern "C" fn octet_feed_end(alloc: Global, stream: &mut Handle, at: &mut u64) -> i32
    ensures { EndsHeld stream.old.held result at.old at.new stream.new.held }
{
    match stream.take(alloc) {
        None => NO_STREAM,
        Some(mut held) => {
            let status = match &mut *held {
                Held::Inlet(inlet) => fed_all(alloc, inlet, at),
                Held::Window(window) => found(alloc, window, at),
                _ => OTHER_KIND,
            };
            stream.put(held);
            status
        }
    }
}
