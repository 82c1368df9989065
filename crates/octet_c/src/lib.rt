//! The shared heap for programs that are not Rattle: what the heap asks of its callers is tested at run time, and a status
//! code answered. `include/octet.h` has the calls as C sees them.
#![tactic(auto)]

ghost use Rattle.octet_c.specs.declared.status.TheConstants.{READY};
ghost use Rattle.std.specs.Prelude.{◌≡◌, ◌≢◌, All, map, Some, None, IfOk, IfErr};
ghost use Rattle.std.specs.Prelude.{length as list_length};
ghost use Rattle.octet_c.specs.Names.{access_named, update_named};
ghost use Rattle.octet_c.specs.Statuses.{Starts, Stops, EndsThread, BeginsRegionNext, Passes, Polls, OnHandle, AsksHandle};
ghost use Rattle.octet_c.specs.Keeping.{CopiesOf, CopiesValues};
ghost use Rattle.octet_c.specs.Closed.{first_kind, Closes, RefusesToClose, GivesNoRecord};
ghost use Rattle.octet_c.specs.Opened.{Declares, Records, Opens, Follows, RefusesToOpen, RefusesToFollow, GivesNone};
ghost use Rattle.octet_c.specs.Sessions.{IsHeld};

mod handing;
mod handle;
mod held;
mod kept;
mod kind;
mod long;
mod scripts;
mod status;
mod streams;
mod told;
mod turns;
mod window;
mod words;

use handing::{Boxes, put_all, take_all, threads_of};
pub use handle::Handle;
pub use held::Held;
pub use kept::Values;
pub use kind::Kind;
use kind::Thread;
use octet_host::{CloseFault, copy_out};
use octet_host_long::{LongRecorded, LongRepeated};
use octet_host_script::{Recorded, Repeated};
use octet_recorder::Access;
use status::{
    NO_CHANGE, NO_MEMORY, NO_MODE, NO_RECORD, NO_SESSION, OTHER_KIND, READY, close_status,
};
use std::alloc::Global;
pub use window::Window;
use words::{access_of, update_of};

/// Opens a heap as the text declares it, and puts a session behind each of the handles, one for each thread, in order. What
/// a handle held is freed.
#[unsafe(no_mangle)]
pub extern "C" fn octet_open(alloc: Global, text: &[u8], sessions: &mut [Handle]) -> i32
    ensures ready { result ≡ READY → Opens text.now sessions.new }
    ensures kept { result ≢ READY → sessions.new ≡ sessions.old }
    ensures cause { result ≢ READY → GivesNone (RefusesToOpen text.now) (Declares text.now) (list_length sessions.old) result }
{
    match scripts::opened(alloc, text) {
        Ok(opened) => put_all(alloc, sessions, opened),
        Err(fault) => fault.status(),
    }
}

/// Opens a recording, the text of a script and the bytes of its log, to run its threads again, and puts a session behind
/// each of the handles, one for each thread, in order. Refused where the log does not fit the script, or leaves conflicts
/// unordered. What a handle held is freed.
#[unsafe(no_mangle)]
pub extern "C" fn octet_follow(
    alloc: Global,
    script: &[u8],
    log: &[u8],
    sessions: &mut [Handle],
) -> i32
    ensures ready { result ≡ READY → Follows script.now log.now sessions.new }
    ensures kept { result ≢ READY → sessions.new ≡ sessions.old }
    ensures cause { result ≢ READY → GivesNone (RefusesToFollow script.now log.now) (Records script.now log.now) (list_length sessions.old) result }
{
    match scripts::followed(alloc, script, log) {
        Ok(opened) => put_all(alloc, sessions, opened),
        Err(fault) => fault.status(),
    }
}

/// Marks the session's thread as running.
#[unsafe(no_mangle)]
pub extern "C" fn octet_start(alloc: Global, session: &mut Handle) -> i32
    ensures { OnHandle Starts session.old.held result session.new.held }
{
    match session.take(alloc) {
        None => NO_SESSION,
        Some(mut held) => {
            let status = held.start();
            session.put(held);
            status
        }
    }
}

/// Marks the session's thread as blocked.
#[unsafe(no_mangle)]
pub extern "C" fn octet_stop(alloc: Global, session: &mut Handle) -> i32
    ensures { OnHandle Stops session.old.held result session.new.held }
{
    match session.take(alloc) {
        None => NO_SESSION,
        Some(mut held) => {
            let status = held.stop();
            session.put(held);
            status
        }
    }
}

/// Ends the session's thread. In a recorded run it is blocked. In a second run it has diverged where its recording has more
/// accesses, and `out` is how many it has made; it is pending while marks that are left wait for another thread.
#[unsafe(no_mangle)]
pub extern "C" fn octet_end(alloc: Global, session: &mut Handle, out: &mut u64) -> i32
    ensures { OnHandle (EndsThread out.old out.new) session.old.held result session.new.held }
{
    match session.take(alloc) {
        None => NO_SESSION,
        Some(mut held) => {
            let status = held.end(out);
            session.put(held);
            status
        }
    }
}

/// Begins a region with the session's next access.
#[unsafe(no_mangle)]
pub extern "C" fn octet_region(alloc: Global, session: &mut Handle) -> i32
    ensures { OnHandle BeginsRegionNext session.old.held result session.new.held }
{
    match session.take(alloc) {
        None => NO_SESSION,
        Some(mut held) => {
            let status = held.region();
            session.put(held);
            status
        }
    }
}

/// Answers the threads that have asked this one: 1 if any has. In a second run none asks.
#[unsafe(no_mangle)]
pub extern "C" fn octet_safe_point(alloc: Global, session: &mut Handle) -> i32
    ensures { OnHandle Passes session.old.held result session.new.held }
{
    match session.take(alloc) {
        None => NO_SESSION,
        Some(mut held) => {
            let status = held.safe_point();
            session.put(held);
            status
        }
    }
}

// Begins an access of the thread behind the handle.
#[inline(always)]
fn access(alloc: Global, session: &mut Handle, wanted: Access, out: &mut u64) -> i32
    ensures { AsksHandle (Some wanted) NO_MODE session.old.held result out.old out.new session.new.held }
{
    match session.take(alloc) {
        None => NO_SESSION,
        Some(mut held) => {
            let status = held.access(wanted, out);
            session.put(held);
            status
        }
    }
}

/// Begins a read (mode 0) or a write of the value (mode 1): 0 with the value read or written, or 1 where it is pending.
#[unsafe(no_mangle)]
pub extern "C" fn octet_access(
    alloc: Global,
    session: &mut Handle,
    mode: u8,
    object: u16,
    value: u64,
    out: &mut u64,
) -> i32
    ensures { AsksHandle (access_named mode object value) NO_MODE session.old.held result out.old out.new session.new.held }
{
    match access_of(mode, object, value) {
        Some(wanted) => access(alloc, session, wanted, out),
        None => NO_MODE,
    }
}

/// Begins one read-modify-write: 0 with the value that it found, or 1 where it is pending.
#[unsafe(no_mangle)]
pub extern "C" fn octet_update(
    alloc: Global,
    session: &mut Handle,
    change: u8,
    object: u16,
    operand: u64,
    expected: u64,
    out: &mut u64,
) -> i32
    ensures { AsksHandle (update_named change object operand expected) NO_CHANGE session.old.held result out.old out.new session.new.held }
{
    match update_of(change, object, operand, expected) {
        Some(wanted) => access(alloc, session, wanted, out),
        None => NO_CHANGE,
    }
}

/// Goes on with the access that was begun: 0 with its value, or 1 where it is pending.
#[unsafe(no_mangle)]
pub extern "C" fn octet_poll(alloc: Global, session: &mut Handle, out: &mut u64) -> i32
    ensures { OnHandle (Polls out.old out.new) session.old.held result session.new.held }
{
    match session.take(alloc) {
        None => NO_SESSION,
        Some(mut held) => {
            let status = held.poll(out);
            session.put(held);
            status
        }
    }
}

// Ends the run of threads which are all of this kind.
fn close_kind<T: Thread>(alloc: Global, boxes: Boxes) -> Result<Held, CloseFault>
    requires good { All (λ box. IsHeld box.value) boxes.items }
    requires kind { first_kind (map (λ box. box.value) boxes.items) ≡ Some T.kind }
    ensures good { IfOk result IsHeld }
    ensures closes { IfOk result (λ kept. Closes (map (λ box. Some box.value) boxes.items) (Some kept)) }
    ensures refused { IfErr result (RefusesToClose (map (λ box. Some box.value) boxes.items)) }
{
    let threads = threads_of(alloc, boxes)?;
    T::close(alloc, threads)
}

// The kind of the first thread, if it is one.
fn kind_of_first(boxes: &[Box<Held, Global>]) -> Option<Kind>
    ensures { result ≡ first_kind (map (λ box. box.value) boxes.now) }
{
    match boxes.first() {
        Some(first) => first.kind(),
        None => None,
    }
}

// Ends the run of threads which are all of one kind.
fn close_boxes(alloc: Global, boxes: Boxes) -> Result<Held, CloseFault>
    requires { All (λ box. IsHeld box.value) boxes.items }
    ensures good { IfOk result IsHeld }
    ensures closes { IfOk result (λ kept. Closes (map (λ box. Some box.value) boxes.items) (Some kept)) }
    ensures refused { IfErr result (RefusesToClose (map (λ box. Some box.value) boxes.items)) }
{
    match kind_of_first(boxes.as_slice()) {
        Some(Kind::Recorded) => close_kind::<Recorded>(alloc, boxes),
        Some(Kind::Repeated) => close_kind::<Repeated>(alloc, boxes),
        Some(Kind::LongRecorded) => close_kind::<LongRecorded>(alloc, boxes),
        Some(Kind::LongRepeated) => close_kind::<LongRepeated>(alloc, boxes),
        None => Err(CloseFault::OtherSessions),
    }
}

// Ends the run of the sessions behind the handles.
fn closed(alloc: Global, sessions: &mut [Handle]) -> Result<Held, CloseFault>
    ensures gone { All (λ session. session.held ≡ None) sessions.new }
    ensures good { IfOk result IsHeld }
    ensures closes { IfOk result (λ kept. Closes (map (λ session. session.held) sessions.old) (Some kept)) }
    ensures refused { IfErr result (RefusesToClose (map (λ session. session.held) sessions.old)) }
{
    let boxes = take_all(alloc, sessions)?;
    close_boxes(alloc, boxes)
}

/// Ends the run, and puts its record behind `kept`; what that held is freed. The sessions are those that one call gave, in
/// order, each off, blocked or over; after `octet_follow` each has made all accesses of its recording. They are gone then,
/// whatever is answered. Any others are refused.
#[unsafe(no_mangle)]
pub extern "C" fn octet_close(alloc: Global, sessions: &mut [Handle], kept: &mut Handle) -> i32
    ensures gone { All (λ session. session.held ≡ None) sessions.new }
    ensures kept { result ≡ READY → Closes (map (λ session. session.held) sessions.old) kept.new.held }
    ensures refused { result ≢ READY → kept.new ≡ kept.old }
    ensures cause { result ≢ READY → GivesNoRecord (map (λ session. session.held) sessions.old) result }
{
    match closed(alloc, sessions) {
        Ok(closed) => match Box::new(alloc, closed) {
            Ok(held) => {
                drop(kept.take(alloc));
                kept.put(held);
                READY
            }
            Err(_) => NO_MEMORY,
        },
        Err(fault) => close_status(fault),
    }
}

/// Copies as much of the script's text as there is room for, and says how long it is.
#[unsafe(no_mangle)]
pub extern "C" fn octet_script(
    alloc: Global,
    kept: &mut Handle,
    out: &mut [u8],
    length: &mut usize,
) -> i32
    ensures keeps { kept.new.held ≡ kept.old.held }
    ensures copies { CopiesOf (λ kept. kept.script.items) (λ texts. texts.script.items) kept.old.held result out.old out.new length.old length.new }
{
    match kept.take(alloc) {
        None => NO_RECORD,
        Some(held) => {
            let status = match &*held {
                Held::Kept(record) => {
                    *length = copy_out(record.script.as_slice(), out);
                    READY
                }
                Held::Window(Window::Made(texts)) => {
                    *length = copy_out(texts.script.as_slice(), out);
                    READY
                }
                _ => OTHER_KIND,
            };
            kept.put(held);
            status
        }
    }
}

/// Copies as much of the log as there is room for, and says how long it is.
#[unsafe(no_mangle)]
pub extern "C" fn octet_log(
    alloc: Global,
    kept: &mut Handle,
    out: &mut [u8],
    length: &mut usize,
) -> i32
    ensures keeps { kept.new.held ≡ kept.old.held }
    ensures copies { CopiesOf (λ kept. kept.log.items) (λ texts. texts.log.items) kept.old.held result out.old out.new length.old length.new }
{
    match kept.take(alloc) {
        None => NO_RECORD,
        Some(held) => {
            let status = match &*held {
                Held::Kept(record) => {
                    *length = copy_out(record.log.as_slice(), out);
                    READY
                }
                Held::Window(Window::Made(texts)) => {
                    *length = copy_out(texts.log.as_slice(), out);
                    READY
                }
                _ => OTHER_KIND,
            };
            kept.put(held);
            status
        }
    }
}

/// Copies as many of the objects' final values as there is room for, and says how many there are.
#[unsafe(no_mangle)]
pub extern "C" fn octet_values(
    alloc: Global,
    kept: &mut Handle,
    out: &mut [u64],
    length: &mut usize,
) -> i32
    ensures keeps { kept.new.held ≡ kept.old.held }
    ensures copies { CopiesValues kept.old.held result out.old out.new length.old length.new }
{
    match kept.take(alloc) {
        None => NO_RECORD,
        Some(held) => {
            let status = match &*held {
                Held::Kept(record) => {
                    *length = copy_out(record.values.as_slice(), out);
                    READY
                }
                Held::Values(kept) => {
                    *length = copy_out(kept.values.as_slice(), out);
                    READY
                }
                Held::Again(again) => {
                    *length = copy_out(again.values.as_slice(), out);
                    READY
                }
                Held::Window(Window::Made(_)) => {
                    *length = copy_out(&[], out);
                    READY
                }
                _ => OTHER_KIND,
            };
            kept.put(held);
            status
        }
    }
}

/// Frees what a handle holds.
#[unsafe(no_mangle)]
pub extern "C" fn octet_free(alloc: Global, handle: &mut Handle)
    ensures { handle.new.held ≡ None }
{
    drop(handle.take(alloc));
}
