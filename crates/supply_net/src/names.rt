//! The names of a network's objects, each in a scope.
ghost use Rattle.std.specs.Prelude.{◌≡◌, ◌++◌, ◌+◌, ◌<◌, ◌≤◌, ℕ, List, None, Some, length, set, slice_get, IfOk, IfSome, IfNone, OnOk, OnErr};
ghost use Rattle.std.specs.Int.{w32, to_be_bytes};
ghost use Rattle.list_defs.specs.Members.{place_of, same_name};
ghost use Rattle.supply_net.specs.Names.{scoped, nothing, object_in, with_object};

use name_index::NameIndex;
use pw_defs::Memory;
use std::alloc::Global;
use std::marker::Model;

/// What a name of a network stands for.
#[derive(Clone, Copy)]
pub enum Object {
    /// A supply port, a supply net or a port of a switch, by the number of the supply.
    Supply(u32),
    Set,
    Switch,
}

/// What names stand for, each name with its scope in front. A name without an object stands for nothing.
#[derive(Drop)]
pub(crate) struct ScopedNames {
    index: NameIndex,
    objects: Vec<Option<Object>>,
}

impl Model for ScopedNames {
    ghost use Rattle.supply_net.specs.Names.{AreNames, NameTable};

    ghost Value = { NameTable };

    ghost view = { λ names. record { names = names.index; objects = names.objects.items } };

    ghost invariant = { λ names. AreNames names.index names.objects.items };
}

impl ScopedNames {
    /// No names.
    pub(crate) fn new(alloc: Global) -> ScopedNames
        ensures { object_in result ≡ nothing }
    {
        ScopedNames {
            index: NameIndex::new(alloc),
            objects: Vec::new(alloc),
        }
    }

    /// What a name stands for.
    pub(crate) fn find(&self, name: &[u8]) -> Option<Object>
        ensures { result ≡ object_in self.now name.now }
    {
        let place = self.index.find(name)?;
        match self.objects.get(place as usize) {
            Some(object) => *object,
            None => None,
        }
    }

    /// Gives a name what it stands for. An error leaves all names as they were.
    pub(crate) fn put(&mut self, name: &[u8], object: Object) -> Result<(), Memory>
        ensures ok { OnOk result (object_in self.new ≡ with_object name.now object (object_in self.old)) }
        ensures err { OnErr result (object_in self.new ≡ object_in self.old) }
    {
        match self.index.find(name) {
            Some(place) => {
                self.objects[place as usize] = Some(object);
                Ok(())
            }
            None => {
                self.objects.reserve(1)?;
                self.index.number(name)?;
                self.objects.push_reserved(Some(object));
                Ok(())
            }
        }
    }
}

/// A name with its scope in front, as four bytes.
pub(crate) fn scoped(alloc: Global, scope: u32, name: &[u8]) -> Result<Vec<u8>, Memory>
    ensures { IfOk result (λ key. key.items ≡ scoped scope name.now) }
{
    let mut key = Vec::from_slice(alloc, &scope.to_be_bytes())?;
    key.extend_from_slice(name)?;
    Ok(key)
}
