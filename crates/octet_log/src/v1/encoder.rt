//! A log as bytes of version 1.
ghost use Rattle.std.specs.Prelude.{◌≡◌, ◌++◌, ◌<◌, ◌^◌, IfOk, OnOk, length};
ghost use Rattle.octet_model.specs.Texts.{mark_fields, mark_bytes, thread_bytes, log_bytes};

use crate::field::{push_u32, push_u64};
use octet_model::{Gapped, Log, Mark, OutOfMemory, ThreadLog};
use std::alloc::Global;

fn push_fields(
    out: &mut Vec<u8>,
    kind: u8,
    gap: u32,
    thread: u8,
    number: u64,
) -> Result<(), OutOfMemory>
    ensures { OnOk result (out.new.items ≡ out.old.items ++ mark_fields kind gap thread number) }
{
    out.push(kind)?;
    push_u32(out, gap)?;
    out.push(thread)?;
    push_u64(out, number)
}

fn push_mark(out: &mut Vec<u8>, gapped: Gapped) -> Result<(), OutOfMemory>
    ensures { OnOk result (out.new.items ≡ out.old.items ++ mark_bytes gapped) }
{
    match gapped.mark {
        Mark::Join { from, upto } => push_fields(out, 1, gapped.gap, from, upto),
        Mark::Draw { number } => push_fields(out, 2, gapped.gap, 0, number),
        Mark::Fence { number } => push_fields(out, 3, gapped.gap, 0, number),
    }
}

fn push_thread(out: &mut Vec<u8>, thread: &ThreadLog) -> Result<(), OutOfMemory>
    requires { length thread.now.marks < 2 ^ 31 }
    ensures { OnOk result (out.new.items ≡ out.old.items ++ thread_bytes thread.now) }
{
    push_u32(out, thread.accesses)?;
    push_u32(out, thread.marks.len() as u32)?;
    for gapped in thread.marks.as_slice() {
        push_mark(out, *gapped)?;
    }
    Ok(())
}

/// The bytes of a log in version 1 of the format, which is its one spelling.
pub fn encode_v1(alloc: Global, log: &Log) -> Result<Vec<u8>, OutOfMemory>
    ensures { IfOk result (λ bytes. bytes.items ≡ log_bytes log.now.threads) }
{
    let mut out = Vec::new(alloc);
    out.extend_from_slice(b"OCTL")?;
    out.push(1)?;
    out.push(log.threads.len() as u8)?;
    for thread in log.threads.as_slice() {
        push_thread(&mut out, thread)?;
    }
    Ok(out)
}
