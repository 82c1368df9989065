//! The objects of a window.
ghost use Rattle.std.specs.Prelude.{◌≡◌, length, map, IfOk};
ghost use Rattle.octet_window.specs.Windows.{name_of};

use octet_model::{List, Name, Object, OutOfMemory};
use std::alloc::Global;

// The name of an object by its number.
fn name_of(alloc: Global, object: u16) -> Result<Name, OutOfMemory>
    ensures { IfOk result (λ name. name ≡ name_of object) }
{
    let text = format!(in alloc; "o{object}")?;
    Name::new(alloc, text.as_bytes())
}

/// These objects of a run, with their values.
pub(crate) fn objects_of(
    alloc: Global,
    starts: &[u64],
    objects: &[u16],
) -> Result<List<Object>, OutOfMemory>
    requires { length starts.now ≡ length objects.now }
    ensures names { IfOk result (λ list. map (λ object. object.name) list ≡ map name_of objects.now) }
    ensures starts { IfOk result (λ list. map (λ object. object.start) list ≡ starts.now) }
{
    let mut list = List::new(alloc);
    for (place, object) in objects.iter().enumerate() {
        list.push(Object {
            name: name_of(alloc, *object)?,
            start: starts[place],
        })?;
    }
    Ok(list)
}
