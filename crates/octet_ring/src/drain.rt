//! The ends of all rings that receive.
ghost use Rattle.std.specs.Prelude.{◌≡◌, ◌+◌, ◌<◌, ◌≤◌, ◌++◌, ◌∷◌, [], length, slice_set, IsSome, IfSome, IfNone};
ghost use Rattle.rtrb.specs.Ring.{sent, received, known_items, producer_capacity, IsPair, ProducerLooked, ConsumerLooked};
ghost use Rattle.octet_ring.specs.declared.limits.TheConstants.{MAX_ROOM};
ghost use Rattle.octet_ring.specs.Views.{received_of, known_of, AreLeft, IsOf, LearnsOf, SameRings, SameSender};

use crate::sender::Sender;
use octet_model::Gapped;
use rtrb::{Consumer, Producer};
use std::marker::Model;

/// The receiving ends of all rings. Contracts see the marks that it received of each thread, and how many further
/// marks of each thread it knows of.
#[derive(Drop)]
pub struct Drain {
    pub(crate) ends: Vec<Consumer<Gapped>>,
}

impl Model for Drain {
    ghost use Rattle.octet_ring.specs.Views.{DrainView};

    ghost Value = { DrainView };

    ghost use Rattle.octet_ring.specs.Ends.{drain_view};

    ghost view = { drain_view };
}

impl Drain {
    /// Takes the oldest mark of a thread that was not received yet, or none where it knows of none. It looks whether
    /// more was sent before it answers none, and does not wait.
    pub fn take(&mut self, thread: u8) -> Option<Gapped>
        requires thread { thread < length self.old.received }
        ensures rings { SameRings self.old self.new }
        ensures received { IfSome result (λ mark. self.new.received ≡ slice_set self.old.received thread (received_of self.old thread ++ mark ∷ [])) }
        ensures given { IfSome result (λ mark. received_of self.new thread ≡ received_of self.old thread ++ mark ∷ []) }
        ensures known { LearnsOf self.old thread self.new }
        ensures some { IfSome result (λ _. known_of self.old thread ≤ known_of self.new thread + 1) }
        ensures none { IfNone result ((self.new ≡ self.old) × (known_of self.old thread ≡ 0)) }
    {
        let Ok(mark) = self.ends[thread as usize].pop() else {
            return None;
        };
        Some(mark)
    }

    /// How many marks of a sender were sent and not received. So many calls of `take` for its thread give a mark
    /// each, while the sender sends nothing.
    pub fn rest(&mut self, sender: &mut Sender) -> u32
        requires own { IsOf self.old sender.old }
        ensures own { IsOf self.new sender.new }
        ensures sender { SameSender sender.old sender.new × (sender.new.sent ≡ sender.old.sent) × (sender.old.taken ≤ sender.new.taken) }
        ensures rings { SameRings self.old self.new }
        ensures received { self.new.received ≡ self.old.received }
        ensures known { LearnsOf self.old sender.new.thread self.new × (known_of self.new sender.new.thread ≡ result) }
        ensures sent { AreLeft result self.new sender.new }
        ensures all { result ≡ 0 → sender.new.sent ≡ received_of self.new sender.new.thread }
    {
        waiting(&mut sender.end, &mut self.ends[sender.thread as usize])
    }
}

// How many items were pushed and not popped.
fn waiting(producer: &mut Producer<Gapped>, consumer: &mut Consumer<Gapped>) -> u32
    requires pair { IsPair producer.old consumer.old }
    requires room { producer_capacity producer.old ≤ MAX_ROOM }
    ensures producer { ProducerLooked producer.old producer.new }
    ensures consumer { ConsumerLooked consumer.old consumer.new }
    ensures fifo { received consumer.new ++ known_items consumer.new ≡ sent producer.new }
    ensures value { result ≡ length (known_items consumer.new) }
{
    producer.slots_beside(consumer);
    consumer.slots_beside(producer) as u32
}
