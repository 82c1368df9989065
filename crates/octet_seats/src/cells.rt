//! The cells of a closed table.
ghost use Rattle.std.specs.Prelude.{◌≡◌, ◌+◌, ◌*◌, ◌≤◌, IfOk};
ghost use Rattle.std.specs.Mem.Slots.{slots_items, slots_len, IsFull};
ghost use Rattle.octet_seats.specs.Cells.{cells_in};

use atomic_table::Closed;
use std::alloc::{AllocError, Global};

/// The values of so many cells, in order. The first lies at this place, and each further one eight words on.
pub fn read_cells<S>(
    alloc: Global,
    closed: &Closed<S, Global>,
    first: usize,
    cells: u16,
) -> Result<Vec<u64>, AllocError>
    requires full { IsFull closed.now.words }
    requires room { first + 8 * cells ≤ slots_len closed.now.words + 7 }
    ensures { IfOk result (λ values. values.items ≡ cells_in (slots_items closed.now.words) first cells) }
{
    let mut values = Vec::new(alloc);
    for cell in 0..cells {
        values.push(closed.word(first + 8 * cell as usize))?;
    }
    Ok(values)
}
