//! An access that a thread is about to make.
ghost use Rattle.std.specs.Prelude.{◌≡◌, ℕ};
ghost use Rattle.octet_digest.specs.Digests.{bits_of, digest_with};
ghost use Rattle.octet_follow.specs.Accesses.{object_in, event_of, found_in};

use octet_digest::Digest;
use octet_rule::Change;

/// An access that a thread is about to make.
#[derive(Clone, Copy, Debug, PartialEq, Eq)]
pub enum Access {
    /// A read of the object.
    Read { object: u16 },
    /// A write of the value to the object.
    Write { object: u16, value: u64 },
    /// One read-modify-write of the object by the change.
    Update { object: u16, change: Change },
}

impl Access {
    /// The object that it accesses.
    #[inline(always)]
    pub fn object(self) -> u16
        ensures { result ≡ object_in self }
    {
        match self {
            Access::Read { object }
            | Access::Write { object, .. }
            | Access::Update { object, .. } => object,
        }
    }
    /// The digest with this access, which told its thread this value.
    #[inline(always)]
    pub(crate) fn digested(self, digest: Digest, told: u64) -> Digest
        ensures { (found : ℕ) → told ≡ found_in (event_of self found) → bits_of result ≡ digest_with (event_of self found) (bits_of digest) }
    {
        match self {
            Access::Read { object } => digest.read(object, told),
            Access::Write { object, value } => digest.write(object, value),
            Access::Update { object, change } => digest.update(object, told, change.changed(told)),
        }
    }
}
