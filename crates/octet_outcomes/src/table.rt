//! Rows of equally many numbers, one after another.
ghost use Rattle.std.specs.Prelude.{◌≡◌, ◌+◌, ◌*◌, ◌<◌, ◌≤◌, ◌++◌, ◌∷◌, [], length, get_or, slice_range, OnErr, OnOk};

use octet_model::OutOfMemory;
use std::alloc::Global;
use std::marker::Model;

/// Rows of equally many numbers, in the order in which they came.
#[derive(Drop)]
pub(crate) struct Table<N> {
    width: usize,
    count: usize,
    numbers: Vec<N>,
}

impl<N> Model for Table<N> {
    ghost use Rattle.std.specs.Prelude.{◌≡◌, ◌*◌, length};
    ghost use Rattle.octet_outcomes.specs.Rows.{RowsState, rows_in};

    ghost Value = { RowsState N };

    ghost view = { λ t. record { width = t.width; rows = rows_in t.width t.count t.numbers.items } };

    ghost invariant = { λ t. length t.numbers.items ≡ t.count * t.width };
}

// The row at a place among numbers, by their width.
fn row_among<N>(numbers: &[N], width: usize, place: usize) -> &[N]
    requires { place * width + width ≤ length numbers.now }
    ensures len { length result.now ≡ width }
    ensures part { result.now ≡ slice_range numbers.now (place * width) (place * width + width) }
{
    let from = place * width;
    &numbers[from..from + width]
}

impl<N: Copy> Table<N> {
    /// No rows yet, of this width.
    pub(crate) fn new(alloc: Global, width: usize) -> Table<N>
        ensures { result ≡ record { width = width; rows = [] } }
    {
        Table {
            width,
            count: 0,
            numbers: Vec::new(alloc),
        }
    }

    /// How many rows there are.
    pub(crate) fn len(&self) -> usize
        ensures { result ≡ length self.now.rows }
    {
        self.count
    }

    /// How many numbers each row has.
    pub(crate) fn width(&self) -> usize
        ensures { result ≡ self.now.width }
    {
        self.width
    }

    /// The row at a place.
    pub(crate) fn row(&self, place: usize) -> &[N]
        requires { place < length self.now.rows }
        ensures row { result.now ≡ get_or self.now.rows place [] }
        ensures len { length result.now ≡ self.now.width }
    {
        row_among(&self.numbers, self.width, place)
    }

    /// Adds a row.
    pub(crate) fn add(&mut self, row: &[N]) -> Result<(), OutOfMemory>
        requires width { length row.now ≡ self.old.width }
        requires room { length self.old.rows < usize.MAX }
        ensures ok { OnOk result (self.new ≡ record { width = self.old.width; rows = self.old.rows ++ row.now ∷ [] }) }
        ensures err { OnErr result (self.new ≡ self.old) }
    {
        self.numbers.extend_from_slice(row)?;
        self.count += 1;
        Ok(())
    }
}
