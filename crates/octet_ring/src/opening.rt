//! Making rings.
ghost use Rattle.std.specs.Prelude.{◌≡◌, ◌<◌, ◌≤◌, [], length, replicate, IfOk};
ghost use Rattle.octet_model.specs.declared.limits.TheConstants.{MAX_THREADS};
ghost use Rattle.octet_ring.specs.declared.limits.TheConstants.{MAX_ROOM};
ghost use Rattle.octet_ring.specs.Views.{AreFresh};

use crate::drain::Drain;
use crate::sender::Sender;
use octet_model::{List, OutOfMemory};
use rtrb::RingBuffer;
use std::alloc::Global;

/// A ring for each of so many threads, each with room for so many marks: the sending ends, in the order of the
/// threads, and the receiving ends together. Refused only where memory is.
pub fn rings(alloc: Global, threads: u8, room: u32) -> Result<(List<Sender>, Drain), OutOfMemory>
    requires threads { (0 < threads) × (threads ≤ MAX_THREADS) }
    requires room { (0 < room) × (room ≤ MAX_ROOM) }
    ensures count { IfOk result (λ ends. length ends.0 ≡ threads) }
    ensures senders { IfOk result (λ ends. AreFresh room ends.1 ends.0) }
    ensures drain { IfOk result (λ ends. (ends.1.received ≡ replicate threads []) × (ends.1.known ≡ replicate threads 0)) }
{
    let mut senders = Vec::new(alloc);
    let mut ends = Vec::new(alloc);
    for thread in 0..threads {
        let (producer, consumer) = RingBuffer::new(alloc, room as usize)?;
        senders.push(Sender {
            end: producer,
            thread,
        })?;
        ends.push(consumer)?;
    }
    Ok((List::from_vec(senders), Drain { ends }))
}
