//! Tests of `octet_safe`: two callers, each on a thread of its own.
ghost use Rattle.std.specs.Prelude.{◌≡◌, ◌∷◌, [], IfOk};
ghost use Rattle.octet_state.specs.declared.phase.Due.TheVariants.{Nothing};
ghost use Rattle.octet_rule.specs.Seats.{view, threads_of, starts_of, IsSeatOf, RestsAs, Closes};
ghost use Rattle.octet_rule.specs.Conditions.{IsResting};

use octet_model::{List, OutOfMemory};
use octet_rule::{Seat, Words};
use octet_safe::{block, safe_point, unblock};
use std::alloc::Global;
use std::test::*;
use std::thread::{Threads, join_mut};

/// Unblocks, takes a safe point and blocks, so often. Answers how often it was asked.
fn rounds(words: &Words, seat: &mut Seat, count: u32) -> u32
    requires own { IsSeatOf words.now seat.old }
    requires due { (view seat.old).thread.due ≡ Nothing }
    requires still { IsResting (view seat.old).thread.phase }
    ensures own { IsSeatOf words.now seat.new }
    ensures same { (view seat.new).number ≡ (view seat.old).number }
    ensures due { (view seat.new).thread.due ≡ Nothing }
    ensures still { IsResting (view seat.new).thread.phase }
    ensures journal { (view seat.new).journal ≡ (view seat.old).journal }
{
    let mut asked = 0;
    for _ in 0..count {
        unblock(words, seat);
        if safe_point(words, seat) && asked < count {
            asked += 1;
        }
        block(words, seat);
    }
    asked
}

/// The same of two seats, each on a thread.
fn both<R: Threads + Sync>(
    rt: &R,
    words: &Words,
    a: &mut Seat,
    b: &mut Seat,
    count: u32,
) -> (u32, u32)
    requires own { IsSeatOf words.now a.old × IsSeatOf words.now b.old }
    requires due { ((view a.old).thread.due ≡ Nothing) × ((view b.old).thread.due ≡ Nothing) }
    requires still { IsResting (view a.old).thread.phase × IsResting (view b.old).thread.phase }
    ensures own { IsSeatOf words.now a.new × IsSeatOf words.now b.new }
    ensures same { ((view a.new).number ≡ (view a.old).number) × ((view b.new).number ≡ (view b.old).number) }
    ensures still { IsResting (view a.new).thread.phase × IsResting (view b.new).thread.phase }
    ensures journals { ((view a.new).journal ≡ (view a.old).journal) × ((view b.new).journal ≡ (view b.old).journal) }
{
    join_mut(
        rt,
        &mut || rounds(words, a, count),
        &mut || rounds(words, b, count),
    )
}

/// Hands both seats in.
fn give_back(
    words: Words,
    alloc: Global,
    first: Seat,
    second: Seat,
) -> Result<List<u64>, OutOfMemory>
    requires words { threads_of words ≡ 2 }
    requires first { IsSeatOf words first × RestsAs 0 first }
    requires second { IsSeatOf words second × RestsAs 1 second }
    ensures { IfOk result (λ values. Closes (starts_of words) (first ∷ second ∷ []) values) }
{
    let mut seats = List::new(alloc);
    seats.push(first)?;
    seats.push(second)?;
    words.close(alloc, seats)
}

#[test]
fn two_callers_each_on_a_thread(rt: HostRuntime) -> Result<(), OutOfMemory> {
    let starts = List::from_vec(Vec::from_slice(rt.alloc(), &[4])?);
    let (words, seats) = Words::new(rt.alloc(), 2, &starts)?;
    let mut seats = seats.into_vec();
    let mut second = seats.remove(1);
    let mut first = seats.remove(0);
    let asked = both(&rt, &words, &mut first, &mut second, 1_000);
    assert_eq!(rt; asked, (0, 0));
    let values = give_back(words, rt.alloc(), first, second)?;
    assert_eq!(rt; values.as_slice(), [4].as_slice());
    Ok(())
}
