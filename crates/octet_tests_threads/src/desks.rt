//! Words of a command line, and what they leave on a desk in memory.
ghost use Rattle.std.specs.Prelude.{◌≡◌, None, IfOk};

use octet_base::{Desk, Fail, MemoryDesk};
use octet_model::{List, OutOfMemory};
use octet_threads::HeapGate;
use octet_top::{Status, serve};
use std::alloc::{AllocError, Global};
use std::process::Abort;
use std::sync::Wait;
use std::test::Fail as Failed;
use std::thread::Threads;

/// A desk with the script as `S` and the log as `K`. Each of `fails` is the number of a call that
/// fails, and how many bytes it lets through.
pub(crate) fn desk_with(
    alloc: Global,
    script: &[u8],
    log: &[u8],
    fails: &[(u64, u32)],
) -> Result<MemoryDesk, OutOfMemory>
    ensures { IfOk result (λ desk. (⟦<MemoryDesk as Desk>⟧.state desk).begun ≡ None) }
{
    let mut contents = List::new(alloc);
    for (call, passed) in fails {
        contents.push(Fail {
            call: *call,
            passed: *passed,
        })?;
    }
    let mut desk = MemoryDesk::new(alloc, contents);
    desk.put(alloc, "S", script)?;
    desk.put(alloc, "K", log)?;
    Ok(desk)
}

pub(crate) fn words_of(alloc: Global, line: &str) -> Result<Vec<String>, AllocError> {
    let mut words = Vec::new(alloc);
    for word in line.split_whitespace() {
        words.push(String::from_str(alloc, word)?)?;
    }
    Ok(words)
}

/// Over a desk with the script as `S` and the log as `K`, the words answer that all is done. The file
/// `L` that they leave.
pub(crate) fn log_left<R: Threads + Wait + Sync + Abort, G: HeapGate>(
    rt: &R,
    alloc: Global,
    script: &[u8],
    log: &[u8],
    line: &str,
    gate: &G,
) -> Result<Vec<u8>, Failed> {
    let mut desk = desk_with(alloc, script, log, &[])?;
    let answer = serve(rt, alloc, &words_of(alloc, line)?, &mut desk, gate);
    assert_eq!(rt; answer, Status::Done.code(), "{line}");
    Ok(Vec::from_slice(alloc, desk.file("L").unwrap_or(&[]))?)
}
