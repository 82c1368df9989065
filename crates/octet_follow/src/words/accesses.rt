//! Accesses of followers: each is one step on its cell. None is shown with it.
ghost use Rattle.std.specs.Prelude.{◌<◌};
ghost use Rattle.octet_follow.specs.Seats.{view, IsSeatOf};
ghost use Rattle.octet_follow.specs.Accesses.{object_in, GoesBy};

use crate::access::Access;
use crate::words::{Seat, Words};

impl Words {
    /// Makes an access, and shows nothing of it. Answers the value that a read or an update found, or that a
    /// write wrote.
    #[inline(always)]
    pub(crate) fn make(&self, seat: &mut Seat, access: Access) -> u64
        requires own { IsSeatOf self.now seat.old }
        requires object { object_in access < self.now.objects }
        ensures own { IsSeatOf self.now seat.new }
        ensures made { GoesBy access (view seat.old) result (view seat.new) }
    {
        match access {
            Access::Read { object } => self.read(seat, object),
            Access::Write { object, value } => {
                self.write(seat, object, value);
                value
            }
            Access::Update { object, change } => self.update(seat, object, change),
        }
    }
}
