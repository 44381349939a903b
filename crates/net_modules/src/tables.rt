//! A table that tells what declarations say of each name.
ghost use Rattle.std.specs.Prelude.{◌≡◌, List, [], ◌∷◌, ◌++◌, Some, IfOk, OnOk, map};
ghost use Rattle.std.specs.List.{filter};
ghost use Rattle.list_defs.specs.Members.{place_of, same_name};
ghost use Rattle.net_text.specs.DeclarationViews.{declaration_view};
ghost use Rattle.net_text.specs.SecondDeclarations.{Declaration, named_in};
ghost use Rattle.net_modules.specs.Sayings.{says_port};
ghost use Rattle.net_modules.specs.SaidTables.{HasPlaces, IsTableOf, TellsAs, TellsMore, said_at, said_view};

use crate::names::{name_in, says_port};
use crate::said::{Said, nothing, said_with};
use name_index::NameIndex;
use net_text::DeclarationAt;
use std::alloc::{AllocError, Global};

/// What is said of each name that is declared, by the place of the name.
#[derive(Drop)]
pub struct SaidTable {
    names: NameIndex,
    said: Vec<Said>,
}

impl SaidTable {
    /// The table of no declarations.
    #[tactic(auto, unfolding(crate::specs::SaidTables::said_at, crate::specs::Sayings::said_of))]
    pub fn new(alloc: Global) -> SaidTable
        ensures { IsTableOf result [] }
    {
        SaidTable {
            names: NameIndex::new(alloc),
            said: Vec::new(alloc),
        }
    }

    /// What is said of a name.
    #[tactic(auto, unfolding(crate::specs::SaidTables::said_at))]
    pub fn said(&self, name: &[u8]) -> Said
        requires { HasPlaces self.now }
        ensures { said_view result ≡ said_at self.now name.now }
    {
        match self.names.find(name) {
            None => nothing(),
            Some(place) => self.said[place as usize],
        }
    }

    /// The place of a name, of which nothing is said yet where it is new.
    fn place(&mut self, name: &[u8]) -> Result<u32, AllocError>
        requires { HasPlaces self.old }
        ensures place { IfOk result (λ place. place_of (same_name name.now) self.new.names ≡ Some place) }
        ensures tells { OnOk result (TellsAs self.old self.new) }
    {
        let known = self.names.len();
        let place = self.names.number(name)?;
        if place < known {
            return Ok(place);
        }
        self.said.push(nothing())?;
        Ok(place)
    }

    /// Adds what a declaration says. The answer is what was said of its name before.
    fn note(&mut self, declaration: &DeclarationAt<'_>) -> Result<Said, AllocError>
        requires { HasPlaces self.old }
        ensures before { IfOk result (λ before. said_view before ≡ said_at self.old (named_in (declaration_view declaration.now)).text) }
        ensures more { OnOk result (TellsMore self.old self.new (declaration_view declaration.now)) }
    {
        let name = name_in(declaration);
        let place = self.place(name.text)?;
        let before = self.said[place as usize];
        self.said[place as usize] = said_with(before, declaration);
        Ok(before)
    }

    /// Adds a declaration to those that the table tells of. The answer is what it told of the name before.
    pub fn add(&mut self, declaration: &DeclarationAt<'_>) -> Result<Said, AllocError>
        requires { HasPlaces self.old }
        ensures before { IfOk result (λ before. said_view before ≡ said_at self.old (named_in (declaration_view declaration.now)).text) }
        ensures table { OnOk result ((given : List Declaration) → IsTableOf self.old given → IsTableOf self.new (given ++ declaration_view declaration.now ∷ [])) }
    {
        let before = self.note(declaration)?;
        Ok(before)
    }

    /// Adds a declaration if it says something of a port.
    fn add_port(&mut self, declaration: &DeclarationAt<'_>) -> Result<(), AllocError>
        requires { HasPlaces self.old }
        ensures { OnOk result ((given : List Declaration) → IsTableOf self.old (filter says_port given) → IsTableOf self.new (filter says_port (given ++ declaration_view declaration.now ∷ []))) }
    {
        if !says_port(declaration) {
            return Ok(());
        }
        self.add(declaration)?;
        Ok(())
    }
}

/// The table of what declarations say of ports.
pub fn ports_of(alloc: Global, all: &[DeclarationAt<'_>]) -> Result<SaidTable, AllocError>
    ensures { IfOk result (λ table. IsTableOf table (filter says_port (map declaration_view all.now))) }
{
    let mut table = SaidTable::new(alloc);
    for declaration in all {
        table.add_port(declaration)?;
    }
    Ok(table)
}
