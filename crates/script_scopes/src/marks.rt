//! The instances that a script marks as soft macros.
ghost use Rattle.std.specs.Prelude.{◌≡◌, ◌<◌, [], nat_eq, length, OnErr, OnOk};
ghost use Rattle.std.specs.List.{list_any};
ghost use Rattle.script_defs.specs.UnitSteps.{with_mark};
ghost use Rattle.script_scopes.specs.Marked.{AreThere, marked, with_number};
ghost use Rattle.script_scopes.specs.Standing.{own_path};

use crate::instances::Hierarchy;
use indexmap::IndexSet;
use pw_defs::Memory;
use std::alloc::Global;
use std::marker::Model;

/// Marked instances, each once, seen as their numbers in the order of marking.
#[derive(Drop)]
pub struct Marks {
    numbers: IndexSet<u32>,
}

impl Model for Marks {
    ghost use Rattle.std.specs.Prelude.{List, ℕ};

    ghost Value = { List ℕ };

    ghost view = { λ m. m.numbers.keys };
}

impl Marks {
    /// No instance is marked.
    pub fn new(alloc: Global) -> Marks
        ensures { result ≡ [] }
    {
        Marks {
            numbers: IndexSet::new(alloc),
        }
    }

    /// Whether an instance is marked.
    pub fn has(&self, n: u32) -> bool
        ensures { result ≡ list_any (nat_eq n) self.now }
    {
        self.numbers.contains(&n)
    }

    /// The marked instances.
    pub fn as_slice(&self) -> &[u32]
        ensures { result.now ≡ self.now }
    {
        self.numbers.as_slice()
    }

    /// Adds a number.
    fn put(&mut self, n: u32) -> Result<(), Memory>
        ensures ok { OnOk result (self.new ≡ with_number self.old n) }
        ensures err { OnErr result (self.new ≡ self.old) }
    {
        self.numbers.insert(n)?;
        Ok(())
    }

    /// Marks an instance. The paths of marked instances grow as the definition says, and an error leaves them as they were.
    pub fn add(&mut self, hierarchy: &Hierarchy, n: u32) -> Result<(), Memory>
        requires { n < length hierarchy.now.insts }
        ensures ok { OnOk result (self.new ≡ with_number self.old n) }
        ensures err { OnErr result (self.new ≡ self.old) }
        ensures there { AreThere hierarchy.now self.old → AreThere hierarchy.now self.new }
        ensures paths { AreThere hierarchy.now self.old
            → OnOk result (marked hierarchy.now self.new ≡ with_mark (marked hierarchy.now self.old) (own_path hierarchy.now n)) }
    {
        hierarchy.sound();
        self.put(n)
    }
}
