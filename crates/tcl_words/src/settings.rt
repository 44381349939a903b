//! The variables that a script has set.
ghost use Rattle.std.specs.Prelude.{◌≡◌, ◌∷◌, [], IfOk, OnOk};
ghost use Rattle.std.specs.Option.{option_map};
ghost use Rattle.tcl_words.specs.Settings.{Holds};
ghost use Rattle.tcl_words.specs.Words.{Variables, value_of};

use pw_defs::Memory;
use std::alloc::Global;
use std::collections::BTreeMap;

/// The text of each variable that is set, by its name.
#[derive(Drop)]
pub(crate) struct Settings {
    texts: BTreeMap<Vec<u8>, Vec<u8>>,
}

impl Settings {
    pub(crate) fn new(alloc: Global) -> Settings
        ensures { Holds result [] }
    {
        Settings {
            texts: BTreeMap::new(alloc),
        }
    }

    /// The text of a variable, where it is set.
    pub(crate) fn text(&self, name: &[u8]) -> Option<&[u8]>
        ensures { (vars : Variables) → Holds self.now vars → option_map (λ text. text.now) result ≡ value_of name.now vars }
    {
        match self.texts.get(name) {
            Some(text) => Some(text.as_slice()),
            None => None,
        }
    }

    /// Sets a variable, in place of its earlier text.
    pub(crate) fn set(&mut self, name: Vec<u8>, text: Vec<u8>) -> Result<(), Memory>
        ensures { OnOk result ((vars : Variables) → Holds self.old vars → Holds self.new ((name.items, text.items) ∷ vars)) }
    {
        self.texts.insert(name, text)?;
        Ok(())
    }
}
