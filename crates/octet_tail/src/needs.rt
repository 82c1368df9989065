//! What a front has at least.
ghost use Rattle.std.specs.Prelude.{◌≡◌, vec_len};
ghost use Rattle.octet_tail.specs.declared.needs.TheConstants.{THREADS};

/// As many threads as a thread's number may name.
pub(crate) const THREADS: usize = 256;

/// How many events of each thread a front has at least, and how many draws.
#[derive(Drop)]
pub(crate) struct Needs {
    pub(crate) made: Vec<u64>,
    pub(crate) draws: u64,
    ghost all: { vec_len made ≡ THREADS },
}
