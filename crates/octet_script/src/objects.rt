//! The objects that the lines so far declare.
ghost use Rattle.std.specs.Prelude.{◌≡◌, ◌++◌, ◌∷◌, [], None, IfOk, OnOk, OnErr, length, map};
ghost use Rattle.octet_model.specs.Name.{IsName};
ghost use Rattle.octet_script.specs.Spelling.{declaration, declared_names, object_named};

use indexmap::IndexMap;
use octet_model::{List, Name, Object, OutOfMemory};
use std::alloc::Global;
use std::marker::Model;

/// The objects that the lines so far declare, in order. Contracts see their declarations.
#[derive(Drop)]
pub(crate) struct Objects<'a> {
    // The value that each starts with, by its name.
    starts: IndexMap<&'a [u8], u64>,
}

impl<'a> Model for Objects<'a> {
    ghost use Rattle.std.specs.Prelude.{List, IsTrue, map};
    ghost use Rattle.std.specs.List.{list_all};
    ghost use Rattle.octet_model.specs.Name.{is_name};
    ghost use Rattle.octet_script.specs.Spelling.{Declaration};

    ghost Value = { List Declaration };

    ghost view = { λ o. map (λ e. record { name = e.0.now; start = e.1 }) o.starts.entries };

    ghost invariant = { λ o. IsTrue (list_all (λ e. is_name e.0.now) o.starts.entries) };
}

impl<'a> Objects<'a> {
    pub(crate) fn new(alloc: Global) -> Objects<'a>
        ensures { result ≡ [] }
    {
        Objects {
            starts: IndexMap::new(alloc),
        }
    }

    pub(crate) fn len(&self) -> usize
        ensures { result ≡ length self.now }
    {
        self.starts.len()
    }

    /// The place of the object with this name.
    pub(crate) fn place_of(&self, name: &[u8]) -> Option<usize>
        ensures { result ≡ object_named (declared_names self.now) name.now }
    {
        self.starts.get_index_of(name)
    }

    /// Adds an object of a new name.
    pub(crate) fn push(&mut self, name: &'a [u8], start: u64) -> Result<(), OutOfMemory>
        requires form { IsName name.now }
        requires fresh { object_named (declared_names self.old) name.now ≡ None }
        ensures ok { OnOk result (self.new ≡ self.old ++ record { name = name.now; start = start } ∷ []) }
        ensures err { OnErr result (self.new ≡ self.old) }
    {
        self.starts.insert(name, start)?;
        Ok(())
    }

    /// The objects, each with a name of its own.
    pub(crate) fn to_list(&self, alloc: Global) -> Result<List<Object>, OutOfMemory>
        ensures { IfOk result (λ objects. map declaration objects ≡ self.now) }
    {
        let mut objects = Vec::with_capacity(alloc, self.starts.len())?;
        for (name, start) in self.starts.iter() {
            objects.push(Object {
                name: Name::new(alloc, name)?,
                start: *start,
            })?;
        }
        Ok(List::from_vec(objects))
    }
}
