//! The words of a table, as they are laid out.
ghost use Rattle.std.specs.Prelude.{◌≡◌, ◌++◌, ◌∷◌, [], replicate, IfOk, OnOk};
ghost use Rattle.octet_seats.specs.Cells.{spread};

use std::alloc::{AllocError, Global};

/// So many words that are 0, and then the cells, each eight words from the next.
pub fn lay_out(alloc: Global, zeros: u16, cells: &[u64]) -> Result<Vec<u64>, AllocError>
    ensures { IfOk result (λ words. words.items ≡ spread (replicate zeros 0 ++ cells.now)) }
{
    let mut words = Vec::new(alloc);
    for _ in 0..zeros {
        push_apart(&mut words, 0)?;
    }
    for object in 0..cells.len() {
        push_apart(&mut words, cells[object])?;
    }
    Ok(words)
}

fn push_apart(words: &mut Vec<u64>, word: u64) -> Result<(), AllocError>
    ensures { OnOk result (words.new.items ≡ words.old.items ++ spread (word ∷ [])) }
{
    words.extend_from_slice([word, 0, 0, 0, 0, 0, 0, 0].as_slice())
}
