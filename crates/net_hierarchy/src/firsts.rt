//! Names of which some may stand twice, each found at its first place.
ghost use Rattle.std.specs.Prelude.{◌≡◌, ℕ, List, [], ◌∷◌, ◌++◌, length, IfOk};
ghost use Rattle.net_hierarchy.specs.Kinds.{AreFirsts, first_place};

use name_index::NameIndex;
use std::alloc::{AllocError, Global};

/// For each name its first place in a list of names.
#[derive(Drop)]
pub(crate) struct Firsts {
    /// Each name once.
    index: NameIndex,
    /// The first place of each of them.
    places: Vec<u32>,
}

impl Firsts {
    pub(crate) fn new(alloc: Global) -> Firsts
        ensures { AreFirsts [] result }
    {
        Firsts {
            index: NameIndex::new(alloc),
            places: Vec::new(alloc),
        }
    }

    /// The first place of a name.
    pub(crate) fn find(&self, name: &[u8]) -> Option<u32>
        ensures { result ≡ first_place self.now name.now }
    {
        match self.index.find(name) {
            Some(at) => self.places.get(at as usize).copied(),
            None => None,
        }
    }

    /// Adds the next name, which stands at this place.
    pub(crate) fn add(&mut self, name: &[u8], place: u32) -> Result<(), AllocError>
        ensures { IfOk result (λ _. (names : List (List ℕ)) → AreFirsts names self.old → place ≡ length names → AreFirsts (names ++ name.now ∷ []) self.new) }
    {
        if self.index.add(name)? {
            self.places.push(place)?;
        }
        Ok(())
    }
}
