//! What a recorder answers, in the words of a session.
ghost use Rattle.std.specs.Prelude.{◌≡◌};
ghost use Rattle.octet_session.specs.Recording.{poll_answer, update_answer};

use crate::not_made::NotMade;
use octet_recorder::{Poll, Updated};
use std::convert::Infallible;

/// A read or a write.
pub(crate) fn poll_answer(poll: Poll) -> Result<u64, NotMade<Infallible>>
    ensures { result ≡ poll_answer poll }
{
    match poll {
        Poll::Ready { value } => Ok(value),
        Poll::Pending { .. } => Err(NotMade::Waits),
    }
}

/// An update.
pub(crate) fn update_answer(updated: Updated) -> Result<u64, NotMade<Infallible>>
    ensures { result ≡ update_answer updated }
{
    match updated {
        Updated::Made { before } => Ok(before),
        Updated::Pending { .. } => Err(NotMade::Waits),
    }
}
