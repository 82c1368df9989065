//! Making feeds and their drainer.
ghost use Rattle.std.specs.Prelude.{◌≡◌, ◌<◌, ◌≤◌, length, map, IfOk, None};
ghost use Rattle.octet_model.specs.declared.limits.TheConstants.{MAX_THREADS};
ghost use Rattle.octet_live.specs.Feeds.{feed_by};
ghost use Rattle.octet_live.specs.Drained.{AreFeeds, IsFresh};

use crate::drainer::{Drainer, PIECE};
use crate::feed::Feed;
use octet_model::{List, OutOfMemory};
use octet_ring::{Drain, MAX_ROOM, Sender, rings};
use std::alloc::Global;

// A feed by each of these senders.
fn feeds_by(alloc: Global, senders: Vec<Sender>) -> Result<List<Feed>, OutOfMemory>
    ensures { IfOk result (λ feeds. feeds ≡ map feed_by senders.items) }
{
    let mut feeds = List::new(alloc);
    for sender in senders {
        feeds.push(Feed { sender, sent: 0 })?;
    }
    Ok(feeds)
}

// The drainer that takes from these rings.
fn drainer_of(alloc: Global, drain: Drain) -> Result<Drainer, OutOfMemory>
    ensures drain { IfOk result (λ drainer. drainer.drain ≡ drain) }
    ensures kept { IfOk result (λ drainer. drainer.kept ≡ None) }
{
    Ok(Drainer {
        alloc,
        drain,
        marks: Vec::with_capacity(alloc, PIECE)?,
        kept: None,
    })
}

/// The feeds of so many threads, in order, and the drainer that takes what they send. Refused only where
/// memory is.
pub fn feeds(alloc: Global, threads: u8) -> Result<(List<Feed>, Drainer), OutOfMemory>
    requires { (0 < threads) × (threads ≤ MAX_THREADS) }
    ensures count { IfOk result (λ ends. length ends.0 ≡ threads) }
    ensures feeds { IfOk result (λ ends. AreFeeds ends.1 ends.0) }
    ensures drainer { IfOk result (λ ends. IsFresh threads ends.1) }
{
    let (senders, drain) = rings(alloc, threads, MAX_ROOM)?;
    let feeds = feeds_by(alloc, senders.into_vec())?;
    let drainer = drainer_of(alloc, drain)?;
    Ok((feeds, drainer))
}
