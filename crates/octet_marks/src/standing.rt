//! Which blocks and ends may stand next, and how far their thread is after them.
ghost use Rattle.std.specs.Prelude.{◌≡◌, ◌<◌, ◌≤◌, length, sum_by, IfOk, IfSome, IfNone, slice_get};
ghost use Rattle.std.specs.List.{list_all};
ghost use Rattle.octet_model.specs.Log.{is_mark};
ghost use Rattle.octet_marks.specs.Judging.{Gives};
ghost use Rattle.octet_state.specs.declared.limits.TheConstants.{MAX_ACCESSES_OF_THREAD};
ghost use Rattle.octet_marks.specs.Standing.{standing_at, advanced, block_after, end_after};

use crate::cause::ReadFault;
use crate::{Block, End, MarksCause, Progress};
use octet_model::{Gapped, Mark};
use octet_state::MAX_ACCESSES_OF_THREAD;

// How far the thread is, if it is at this number of events and has not ended.
#[tactic(auto, unfolding(crate::specs::Standing::standing_at))]
fn standing_at(threads: &[Progress], thread: u8, events: u64) -> Result<Progress, ReadFault>
    ensures judged { Gives (λ x. x) result (standing_at (slice_get threads.now thread) events) }
    ensures within { IfOk result (λ _. thread < length threads.now) }
{
    let Some(progress) = threads.get(usize::from(thread)) else {
        return Err(MarksCause::BadThread.into());
    };
    if progress.ended {
        return Err(MarksCause::AfterEnd.into());
    }
    if progress.events != events {
        return Err(MarksCause::OutOfOrder.into());
    }
    Ok(*progress)
}

// Whether the mark is one of that thread, among `threads` threads.
fn is_mark(threads: usize, thread: u8, mark: Mark) -> bool
    ensures { result ≡ is_mark threads thread mark }
{
    match mark {
        Mark::Join { from, .. } => usize::from(from) < threads && from != thread,
        Mark::Draw { number } | Mark::Fence { number } => number >= 1,
    }
}

fn are_marks(threads: usize, thread: u8, marks: &[Gapped]) -> bool
    ensures { result ≡ list_all (λ m. is_mark threads thread m.mark) marks.now }
{
    for gapped in marks {
        if !is_mark(threads, thread, gapped.mark) {
            return false;
        }
    }
    true
}

// The sum of the gaps of some marks, if it is within the limit of a thread's accesses.
fn gaps_of(marks: &[Gapped]) -> Option<u64>
    ensures sum { IfSome result (λ sum. sum ≡ sum_by (λ m. m.gap) marks.now) }
    ensures few { IfSome result (λ sum. sum ≤ MAX_ACCESSES_OF_THREAD) }
    ensures none { IfNone result (MAX_ACCESSES_OF_THREAD < sum_by (λ m. m.gap) marks.now) }
{
    let mut sum = 0;
    for gapped in marks {
        sum += u64::from(gapped.gap);
        if sum > MAX_ACCESSES_OF_THREAD {
            return None;
        }
    }
    Some(sum)
}

// How far a thread is after a block, within the limits.
#[tactic(auto, unfolding(crate::specs::Standing::advanced))]
fn advanced(before: Progress, block: &Block) -> Result<Progress, ReadFault>
    ensures { Gives (λ x. x) result (advanced before block.now) }
{
    let marks = block.marks.as_slice();
    let Some(gaps) = gaps_of(marks) else {
        return Err(MarksCause::TooLong.into());
    };
    let made = gaps + u64::from(block.gap);
    if made > MAX_ACCESSES_OF_THREAD || before.accesses > MAX_ACCESSES_OF_THREAD - made {
        return Err(MarksCause::TooLong.into());
    }
    let count = made + marks.len() as u64;
    if before.events > u64::MAX - count {
        return Err(MarksCause::TooLong.into());
    }
    Ok(Progress {
        events: before.events + count,
        accesses: before.accesses + made,
        ended: false,
    })
}

/// How far the thread of a block is after it, if the block may stand next.
#[tactic(auto, unfolding(crate::specs::Standing::block_after))]
pub(crate) fn block_after(threads: &[Progress], block: &Block) -> Result<Progress, ReadFault>
    ensures judged { Gives (λ x. x) result (block_after threads.now block.now) }
    ensures within { IfOk result (λ _. block.now.thread < length threads.now) }
{
    let before = standing_at(threads, block.thread, block.first)?;
    if !are_marks(threads.len(), block.thread, block.marks.as_slice()) {
        return Err(MarksCause::BadMark.into());
    }
    advanced(before, block)
}

/// How far the thread of an end is after it, if the end may stand next.
#[tactic(auto, unfolding(crate::specs::Standing::end_after))]
pub(crate) fn end_after(threads: &[Progress], end: End) -> Result<Progress, ReadFault>
    ensures judged { Gives (λ x. x) result (end_after threads.now end) }
    ensures within { IfOk result (λ _. end.thread < length threads.now) }
{
    let before = standing_at(threads, end.thread, end.events)?;
    Ok(Progress {
        ended: true,
        ..before
    })
}
