//! Counts in rows, with a column for each thread that a script may have.
ghost use Rattle.std.specs.Prelude.{◌≡◌, ◌≢◌, ◌+◌, ◌*◌, ◌<◌, ◌⊎◌, ℕ, length, IfOk};
ghost use Rattle.octet_model.specs.declared.limits.TheConstants.{MAX_THREADS};
ghost use Rattle.octet_window.specs.Tables.{cell};

use octet_model::{MAX_THREADS, OutOfMemory};
use std::alloc::Global;

/// Counts in rows, with a column for each thread.
#[derive(Drop)]
pub(crate) struct Table {
    pub(crate) counts: Vec<u64>,
}

impl Table {
    /// Zeros, in so many rows.
    pub(crate) fn new(alloc: Global, rows: usize) -> Result<Table, OutOfMemory>
        requires { rows < 65536 }
        ensures room { IfOk result (λ table. length table.counts.items ≡ MAX_THREADS * rows) }
        ensures zero { IfOk result (λ table. (row column : ℕ) → cell table.counts.items row column ≡ 0) }
    {
        Ok(Table {
            counts: vec![in alloc; 0; MAX_THREADS * rows]?,
        })
    }

    /// The count of this row and thread.
    pub(crate) fn get(&self, row: u16, column: u8) -> u64
        requires { MAX_THREADS * row + column < length self.now.counts.items }
        ensures { result ≡ cell self.now.counts.items row column }
    {
        self.counts[MAX_THREADS * row as usize + column as usize]
    }

    /// Sets the count of this row and thread.
    pub(crate) fn set(&mut self, row: u16, column: u8, count: u64)
        requires there { MAX_THREADS * row + column < length self.old.counts.items }
        requires column { column < MAX_THREADS }
        ensures room { length self.new.counts.items ≡ length self.old.counts.items }
        ensures here { cell self.new.counts.items row column ≡ count }
        ensures others { (r c : ℕ) → c < MAX_THREADS → (r ≢ row) ⊎ (c ≢ column) → cell self.new.counts.items r c ≡ cell self.old.counts.items r c }
    {
        self.counts[MAX_THREADS * row as usize + column as usize] = count;
    }
}
