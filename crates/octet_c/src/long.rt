//! The calls by which a run of any length begins.
ghost use Rattle.octet_c.specs.declared.status.TheConstants.{READY};
ghost use Rattle.std.specs.Prelude.{◌≡◌, ◌≢◌, ◌↔◌, All, length, map, true, IfOk, IfErr};
ghost use Rattle.octet_c.specs.declared.status.Fault.TheVariants.{OutOfMemory};
ghost use Rattle.octet_c.specs.Keeping.{AreStarts, CopiesStarts};
ghost use Rattle.octet_c.specs.Long.{IsSize, Refuses, RefusesLong, OpensLong, FollowsLong, AreOpened, AreFollowing, Holds};
ghost use Rattle.octet_c.specs.Opened.{RefusesToOpen};
ghost use Rattle.octet_c.specs.Sessions.{IsHeld};

use crate::handing::{Boxes, put_all};
use crate::handle::Handle;
use crate::kind::Behind;
use crate::status::{Fault, READY};
use octet_host::copy_out;
use octet_host_long::{follow, open};
use octet_host_script::declared;
use octet_model::MAX_THREADS;
use octet_rule::MAX_OBJECTS_OF_HEAP;
use std::alloc::Global;

/// Whether a run of any length may have so many threads and objects.
pub(crate) fn is_size(threads: usize, objects: usize) -> bool
    ensures { (result ≡ true) ↔ IsSize threads objects }
{
    threads >= 1 && threads <= MAX_THREADS && objects >= 1 && objects <= MAX_OBJECTS_OF_HEAP
}

// Refuses numbers of threads and objects that no run may have, and handles that are no pairs.
fn sized(objects: usize, sessions: usize, streams: usize) -> Result<(), Fault>
    ensures fits { IfOk result (λ _. IsSize sessions objects × (sessions ≡ streams)) }
    ensures refused { IfErr result (Refuses objects sessions streams) }
{
    if !is_size(sessions, objects) {
        return Err(Fault::BadSize);
    }
    if sessions != streams {
        return Err(Fault::OtherSessions);
    }
    Ok(())
}

/// Threads or streams, each in a box.
pub(crate) fn box_all<T: Behind>(alloc: Global, all: Vec<T>) -> Result<Boxes, Fault>
    ensures each { IfOk result (λ boxes. map (λ box. box.value) boxes.items ≡ map (λ it. T.as_held it) all.items) }
    ensures memory { IfErr result (λ fault. fault ≡ OutOfMemory) }
{
    let mut boxes = Vec::new(alloc);
    for it in all {
        boxes.push(Box::new(alloc, it.into_held())?)?;
    }
    Ok(boxes)
}

// The threads of a new run and their streams.
fn opened(
    alloc: Global,
    starts: &[u64],
    sessions: usize,
    streams: usize,
) -> Result<(Boxes, Boxes), Fault>
    ensures opens { IfOk result (λ boxes. AreOpened sessions starts.now (map (λ box. box.value) boxes.0.items) (map (λ box. box.value) boxes.1.items)) }
    ensures good { IfOk result (λ boxes. All (λ box. IsHeld box.value) boxes.0.items × All (λ box. IsHeld box.value) boxes.1.items) }
    ensures count { IfOk result (λ boxes. (length boxes.0.items ≡ sessions) × (length boxes.1.items ≡ streams)) }
    ensures refused { IfErr result (Refuses (length starts.now) sessions streams) }
{
    sized(starts.len(), sessions, streams)?;
    let (recorded, outlets) = open(alloc, sessions as u8, starts)?;
    let threads = box_all(alloc, recorded)?;
    let ends = box_all(alloc, outlets)?;
    Ok((threads, ends))
}

// The threads of a run that is made again and their streams.
fn following(
    alloc: Global,
    starts: &[u64],
    declared: &[u8],
    last: u16,
    sessions: usize,
    streams: usize,
) -> Result<(Boxes, Boxes), Fault>
    ensures follows { IfOk result (λ boxes. AreFollowing sessions starts.now declared.now last (map (λ box. box.value) boxes.0.items) (map (λ box. box.value) boxes.1.items)) }
    ensures good { IfOk result (λ boxes. All (λ box. IsHeld box.value) boxes.0.items × All (λ box. IsHeld box.value) boxes.1.items) }
    ensures count { IfOk result (λ boxes. (length boxes.0.items ≡ sessions) × (length boxes.1.items ≡ streams)) }
    ensures refused { IfErr result (Refuses (length starts.now) sessions streams) }
{
    sized(starts.len(), sessions, streams)?;
    let (repeated, inlets) = follow(alloc, sessions as u8, starts, declared, last)?;
    let threads = box_all(alloc, repeated)?;
    let ends = box_all(alloc, inlets)?;
    Ok((threads, ends))
}

// Puts threads behind the one handles, and their streams behind the others.
fn put_both(
    alloc: Global,
    sessions: &mut [Handle],
    streams: &mut [Handle],
    boxes: (Boxes, Boxes),
) -> i32
    requires good { All (λ box. IsHeld box.value) boxes.0.items × All (λ box. IsHeld box.value) boxes.1.items }
    requires count { (length boxes.0.items ≡ length sessions.old) × (length boxes.1.items ≡ length streams.old) }
    ensures ready { result ≡ READY }
    ensures sessions { Holds (map (λ box. box.value) boxes.0.items) sessions.new }
    ensures streams { Holds (map (λ box. box.value) boxes.1.items) streams.new }
{
    let (threads, ends) = boxes;
    put_all(alloc, sessions, threads);
    put_all(alloc, streams, ends)
}

// The starting values of the objects that the text declares.
fn starts_of(alloc: Global, text: &[u8]) -> Result<Vec<u64>, Fault>
    ensures starts { IfOk result (λ starts. AreStarts text.now starts.items) }
    ensures refused { IfErr result (RefusesToOpen text.now) }
{
    let script = declared(alloc, text)?;
    Ok(script.starting_heap(alloc)?)
}

/// Copies as many starting values of the objects that a text declares as there is room for, and says how many there are. With
/// them and the text as what was declared a run of any length opens as the text says.
#[unsafe(no_mangle)]
pub extern "C" fn octet_starts(
    alloc: Global,
    text: &[u8],
    out: &mut [u64],
    length: &mut usize,
) -> i32
    ensures { CopiesStarts text.now result out.old out.new length.old length.new }
{
    match starts_of(alloc, text) {
        Ok(starts) => {
            *length = copy_out(starts.as_slice(), out);
            READY
        }
        Err(fault) => fault.status(),
    }
}

/// Opens a run of any length over objects with these starting values, and puts a session and its stream behind the handles,
/// one of each for each thread, in order. What a handle held is freed.
#[unsafe(no_mangle)]
pub extern "C" fn octet_open_long(
    alloc: Global,
    starts: &[u64],
    sessions: &mut [Handle],
    streams: &mut [Handle],
) -> i32
    ensures ready { result ≡ READY → OpensLong (length sessions.old) starts.now sessions.new streams.new }
    ensures kept { result ≢ READY → (sessions.new ≡ sessions.old) × (streams.new ≡ streams.old) }
    ensures cause { result ≢ READY → RefusesLong (length starts.now) (length sessions.old) (length streams.old) result }
{
    match opened(alloc, starts, sessions.len(), streams.len()) {
        Ok(boxes) => put_both(alloc, sessions, streams, boxes),
        Err(fault) => fault.status(),
    }
}

/// Opens a run of any length that is made again, over objects with these starting values, and puts a session and its stream
/// behind the handles, one of each for each thread, in order. Each stream is fed a marks file, whose head has to be that of
/// `octet_head`. Each thread notes its last accesses, so many. What a handle held is freed.
#[unsafe(no_mangle)]
pub extern "C" fn octet_follow_long(
    alloc: Global,
    starts: &[u64],
    declared: &[u8],
    last: u16,
    sessions: &mut [Handle],
    streams: &mut [Handle],
) -> i32
    ensures ready { result ≡ READY → FollowsLong (length sessions.old) starts.now declared.now last sessions.new streams.new }
    ensures kept { result ≢ READY → (sessions.new ≡ sessions.old) × (streams.new ≡ streams.old) }
    ensures cause { result ≢ READY → RefusesLong (length starts.now) (length sessions.old) (length streams.old) result }
{
    match following(alloc, starts, declared, last, sessions.len(), streams.len()) {
        Ok(boxes) => put_both(alloc, sessions, streams, boxes),
        Err(fault) => fault.status(),
    }
}
