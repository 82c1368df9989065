//! Whether two heads are one.
ghost use Rattle.std.specs.Prelude.{◌≡◌, ◌≢◌, true, false};

use octet_marks::Head;

/// Whether two files are recordings of one run, by their heads.
pub(crate) fn is_same(one: &Head, other: &Head) -> bool
    ensures same { result ≡ true → one.now ≡ other.now }
    ensures differs { result ≡ false → one.now ≢ other.now }
{
    one.threads == other.threads
        && one.declared.bytes == other.declared.bytes
        && one.starts.as_slice() == other.starts.as_slice()
}
