//! Rings of marks, both ends on one thread.
ghost use Rattle.std.specs.Prelude.{◌≡◌};
ghost use Rattle.octet_ring.specs.Views.{received_of, IsOf, SameRings, SameSender};

use octet_model::{Gapped, Mark};
use octet_ring::{Drain, Sender, rings};
use std::test::Fail;

// A mark that no other number has.
fn mark(number: u32) -> Gapped {
    Gapped {
        gap: number,
        mark: Mark::Draw {
            number: u64::from(number) + 1,
        },
    }
}

// Takes what a sender sent: as many marks as are left, each of which is there.
fn take_rest(drain: &mut Drain, sender: &mut Sender, thread: u8) -> u32
    requires own { IsOf drain.old sender.old }
    requires thread { sender.old.thread ≡ thread }
    ensures rings { SameRings drain.old drain.new }
    ensures sender { SameSender sender.old sender.new × (sender.new.sent ≡ sender.old.sent) }
    ensures all { received_of drain.new thread ≡ sender.new.sent }
{
    let left = drain.rest(sender);
    for _ in 0..left {
        let Some(_) = drain.take(thread) else {
            unreachable!()
        };
    }
    drain.rest(sender);
    left
}

#[test]
fn both_ends_look_at_the_other(rt: HostRuntime) -> Result<(), Fail> {
    let (senders, mut drain) = rings(rt.alloc(), 1, 1)?;
    let mut senders = senders.into_vec();
    let mut sender = senders.remove(0);
    assert_eq!(rt; sender.send(mark(1)), None);
    assert_eq!(rt; drain.take(0), Some(mark(1)));
    assert_eq!(rt; sender.send(mark(2)), None);
    assert_eq!(rt; drain.take(0), Some(mark(2)));
    assert_eq!(rt; sender.send(mark(3)), None);
    assert_eq!(rt; drain.take(0), Some(mark(3)));
    Ok(())
}

#[test]
fn a_full_ring_hands_a_mark_back(rt: HostRuntime) -> Result<(), Fail> {
    let (senders, mut drain) = rings(rt.alloc(), 1, 1)?;
    let mut senders = senders.into_vec();
    let mut sender = senders.remove(0);
    assert_eq!(rt; sender.send(mark(1)), None);
    assert_eq!(rt; sender.send(mark(2)), Some(mark(2)));
    assert_eq!(rt; drain.rest(&mut sender), 1);
    assert_eq!(rt; drain.take(0), Some(mark(1)));
    assert_eq!(rt; drain.rest(&mut sender), 0);
    Ok(())
}

#[test]
fn each_thread_has_a_ring_of_its_own(rt: HostRuntime) -> Result<(), Fail> {
    let (senders, mut drain) = rings(rt.alloc(), 16, 1)?;
    let mut senders = senders.into_vec();
    let mut last = senders.remove(15);
    let mut first = senders.remove(0);
    assert_eq!(rt; last.send(mark(15)), None);
    assert_eq!(rt; first.send(mark(1)), None);
    assert_eq!(rt; drain.take(15), Some(mark(15)));
    assert_eq!(rt; take_rest(&mut drain, &mut first, 0), 1);
    assert_eq!(rt; take_rest(&mut drain, &mut last, 15), 0);
    Ok(())
}
