//! What is copied to a host.
ghost use Rattle.std.specs.Prelude.{◌≡◌, length};
ghost use Rattle.octet_host.specs.Copies.{copied};

/// Copies as many as there is room for. Tells how many there are.
pub fn copy_out<T: Copy>(all: &[T], out: &mut [T]) -> usize
    ensures length { result ≡ length all.now }
    ensures out { out.new ≡ copied all.now out.old }
{
    let count = all.len().min(out.len());
    out[..count].copy_from_slice(&all[..count]);
    all.len()
}
