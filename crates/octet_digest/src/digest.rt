//! The digest, and one access more.
ghost use Rattle.std.specs.Prelude.{◌≡◌, ◌<◌, []};
ghost use Rattle.octet_model.specs.declared.event.Event.TheVariants as event;
ghost use Rattle.octet_digest.specs.Digests.{digest_of, digest_with, bits_of, tag, word, stepped};

/// By how many bits a digest is turned before an access goes in. With `STEP_FACTOR` it is the step of FxHash,
/// the hash of Firefox and of rustc.
pub(crate) const TURN: u32 = 5;

/// The odd factor of a step.
pub(crate) const STEP_FACTOR: u64 = 0x517c_c1b7_2722_0a95;

/// The odd factor that spreads a value over the bits of a word: 2^64 by the golden ratio (Knuth, The Art of
/// Computer Programming, multiplicative hashing).
pub(crate) const VALUE_FACTOR: u64 = 0x9e37_79b9_7f4a_7c15;

/// By how many bits the value that an update found is turned, before the value that it left goes in.
pub(crate) const FOUND_TURN: u32 = 31;

/// The kinds of access, as numbers that go in beside the object.
pub(crate) const READ: u64 = 1;

pub(crate) const WRITE: u64 = 2;

pub(crate) const UPDATE: u64 = 3;

/// The digest of the accesses that a thread has made so far.
#[derive(Clone, Copy, Debug, PartialEq, Eq)]
pub struct Digest {
    bits: u64,
}

// Object and kind of an access in one number.
#[inline(always)]
fn tag_of(object: u16, kind: u64) -> u64
    requires kind { kind < 4 }
    ensures { result ≡ tag object kind }
{
    object as u64 * 4 + kind
}

// What an access puts into the digest.
#[inline(always)]
fn word_with(tag: u64, value: u64) -> u64
    ensures { result ≡ word tag value }
{
    tag ^ value.wrapping_mul(VALUE_FACTOR)
}

impl Digest {
    /// The digest of no access.
    #[inline(always)]
    pub fn new() -> Digest
        ensures { bits_of result ≡ digest_of [] }
    {
        Digest { bits: 0 }
    }

    // The digest after an access that puts this word in.
    #[inline(always)]
    fn step(self, word: u64) -> Digest
        ensures { bits_of result ≡ stepped (bits_of self) word }
    {
        Digest {
            bits: (self.bits.rotate_left(TURN) ^ word).wrapping_mul(STEP_FACTOR),
        }
    }

    /// The digest after a read of the object, which found this value.
    #[inline(always)]
    pub fn read(self, object: u16, value: u64) -> Digest
        ensures { bits_of result ≡ digest_with (event.Read object value) (bits_of self) }
    {
        self.step(word_with(tag_of(object, READ), value))
    }

    /// The digest after a write of this value to the object.
    #[inline(always)]
    pub fn write(self, object: u16, value: u64) -> Digest
        ensures { bits_of result ≡ digest_with (event.Write object value) (bits_of self) }
    {
        self.step(word_with(tag_of(object, WRITE), value))
    }

    /// The digest after an update of the object, which found one value and left another.
    #[inline(always)]
    pub fn update(self, object: u16, before: u64, after: u64) -> Digest
        ensures { bits_of result ≡ digest_with (event.Update object before after) (bits_of self) }
    {
        let value = before.rotate_left(FOUND_TURN) ^ after;
        self.step(word_with(tag_of(object, UPDATE), value))
    }

    /// Its 64 bits.
    #[inline(always)]
    pub fn bits(self) -> u64
        ensures { result ≡ bits_of self }
    {
        self.bits
    }
}
