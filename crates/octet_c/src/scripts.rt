//! The threads of runs that are kept as a script, in boxes.
ghost use Rattle.std.specs.Prelude.{◌≡◌, All, length, map, IfOk, IfErr};
ghost use Rattle.octet_c.specs.Opened.{AreOpened, AreFollowing, Declares, Records, RefusesToOpen, RefusesToFollow};
ghost use Rattle.octet_c.specs.Sessions.{IsHeld};

use crate::handing::Boxes;
use crate::long::box_all;
use crate::status::Fault;
use octet_host_script::{follow, open};
use std::alloc::Global;

/// The threads of a heap as the text declares it.
pub(crate) fn opened(alloc: Global, text: &[u8]) -> Result<Boxes, Fault>
    ensures good { IfOk result (λ boxes. All (λ box. IsHeld box.value) boxes.items) }
    ensures declared { IfOk result (λ boxes. Declares text.now (length boxes.items)) }
    ensures opens { IfOk result (λ boxes. AreOpened text.now (map (λ box. box.value) boxes.items)) }
    ensures refused { IfErr result (RefusesToOpen text.now) }
{
    let recorded = open(alloc, text)?;
    let threads = box_all(alloc, recorded)?;
    Ok(threads)
}

/// The threads of a recording, which are run again.
pub(crate) fn followed(alloc: Global, text: &[u8], bytes: &[u8]) -> Result<Boxes, Fault>
    ensures good { IfOk result (λ boxes. All (λ box. IsHeld box.value) boxes.items) }
    ensures recorded { IfOk result (λ boxes. Records text.now bytes.now (length boxes.items)) }
    ensures follows { IfOk result (λ boxes. AreFollowing text.now bytes.now (map (λ box. box.value) boxes.items)) }
    ensures refused { IfErr result (RefusesToFollow text.now bytes.now) }
{
    let repeated = follow(alloc, text, bytes)?;
    let threads = box_all(alloc, repeated)?;
    Ok(threads)
}
