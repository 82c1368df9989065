//! The digest that names a script.
ghost use Rattle.std.specs.Prelude.{◌≡◌};
ghost use Rattle.sha2.specs.Sha256.{sha256};

use crate::Digest;
use sha2::{Digest as _, Sha256};

/// The SHA-256 of the bytes (FIPS 180-4).
pub fn digest(text: &[u8]) -> Digest
    ensures { result.bytes ≡ sha256 text.now }
{
    Digest {
        bytes: Sha256::digest(text),
    }
}
