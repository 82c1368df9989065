//! Scripts and logs of tests, made from what spells them.
use octet_log::decode;
use octet_model::{Log, MAX_LOG_FILE, MAX_SCRIPT_FILE, OutOfMemory, Script};
use octet_script::parse;
use std::alloc::Global;
use std::test::Fail;

/// The script that the text spells.
pub(crate) fn script(alloc: Global, text: &[u8]) -> Result<Script, Fail> {
    if text.len() > MAX_SCRIPT_FILE as usize {
        return Err(Fail::new("a script of a test is too long"));
    }
    Ok(parse(alloc, text)?)
}

/// The kinds of marks, as version 1 of a log has them.
pub(crate) const JOIN: u8 = 1;

pub(crate) const DRAW: u8 = 2;

pub(crate) const FENCE: u8 = 3;

/// A mark of a log: its kind, its gap, the thread of a join, else 0, and its number.
pub(crate) type LogMark = (u8, u32, u8, u64);

/// A thread of a log: how many accesses it makes, and its marks.
pub(crate) type LogThread = (u32, &'static [LogMark]);

fn push_mark(bytes: &mut Vec<u8>, mark: LogMark) -> Result<(), OutOfMemory> {
    let (kind, gap, thread, number) = mark;
    bytes.push(kind)?;
    bytes.extend_from_slice(&gap.to_be_bytes())?;
    bytes.push(thread)?;
    bytes.extend_from_slice(&number.to_be_bytes())?;
    Ok(())
}

/// The log of these threads: it is spelled in version 1, and read.
pub(crate) fn log(alloc: Global, threads: &[LogThread]) -> Result<Log, Fail> {
    let mut bytes = Vec::from_slice(alloc, b"OCTL\x01")?;
    bytes.push((threads.len() % 256) as u8)?;
    for &(accesses, marks) in threads {
        bytes.extend_from_slice(&accesses.to_be_bytes())?;
        bytes.extend_from_slice(&((marks.len() % 65536) as u32).to_be_bytes())?;
        for &mark in marks {
            push_mark(&mut bytes, mark)?;
        }
    }
    if bytes.len() > MAX_LOG_FILE as usize {
        return Err(Fail::new("a log of a test is too long"));
    }
    Ok(decode(alloc, bytes.as_slice())?.log)
}
