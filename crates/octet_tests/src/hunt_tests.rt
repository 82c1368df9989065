//! A hunt of a small script whose wrong end is known.
use crate::samples::script;
use octet_hunt::{Aim, Find, hunt};
use std::alloc::Global;
use std::test::Fail;

/// Two threads add 1 to a number that each reads and writes back.
const LOST: &[u8] =
    b"object n 0\nthread\nset r1 1\nregion\nread r0 n\nadd r0 r0 r1\nwrite n r0\nthread\nset r1 1\nregion\nread r0 n\nadd r0 r0 r1\nwrite n r0\n";

/// A run that leaves another number than 2 in the first object.
fn other_than_2(alloc: Global, text: &[u8]) -> Result<Option<Find>, Fail> {
    let script = script(alloc, text)?;
    if script.objects.len() == 0 {
        return Err(Fail::new("no object"));
    }
    let aim = Aim::OtherValue {
        object: 0,
        number: 2,
    };
    Ok(hunt(alloc, &script, aim, 100)?)
}

#[test]
fn a_lost_count_is_found(rt: HostRuntime) -> Result<(), Fail> {
    let Some(find) = other_than_2(rt.alloc(), LOST)? else {
        return Err(Fail::new("nothing is found"));
    };
    assert_eq!(rt; find.recorded.outcome.heap.as_slice(), [1].as_slice());
    assert_eq!(rt; find.preemptions, 1);
    Ok(())
}
