//! Cells put together, each once, found by their names.
ghost use Rattle.std.specs.Prelude.{◌≡◌, ◌∷◌, ◌++◌, [], IfOk};
ghost use Rattle.std.specs.Bool.{Decides};
ghost use Rattle.cell_joins.specs.Unions.{IsJoin, IsOtherwiseAt, IsUnionOf, JoinsPlaced, StandsAs, StandsTo, Takes, TakesAll, names_of};
ghost use Rattle.cell_joins.specs.declared.unions.Standing.TheVariants.{New};

use lib_cells::PlacedCell;
use name_index::NameIndex;
use pw_defs::{At, Cell, Cells, LibFault, List};
use std::alloc::{AllocError, Global};

/// Cells of which no two have one name, in the order in which they first came, and their names.
#[derive(Drop)]
pub(crate) struct Union {
    pub(crate) names: NameIndex,
    pub(crate) cells: List<Cell>,
}

/// How a cell stands to those that there are: none has its name, it is one of them, or another has its name.
#[derive(Clone, Copy)]
pub(crate) enum Standing {
    New,
    Alike,
    Otherwise,
}

/// Whether two cells are the same.
fn is_same(one: &Cell, other: &Cell) -> bool
    ensures { Decides result (one.now ≡ other.now) }
{
    one == other
}

/// A copy of a cell.
fn copy(cell: &Cell) -> Result<Cell, AllocError>
    ensures { IfOk result (λ c. c ≡ cell.now) }
{
    cell.clone()
}

/// How a cell stands to one of its name.
fn standing_to(known: &Cell, cell: &Cell) -> Standing
    ensures { StandsTo known.now cell.now result }
{
    if is_same(known, cell) {
        Standing::Alike
    } else {
        Standing::Otherwise
    }
}

impl Union {
    /// No cells.
    pub(crate) fn new(alloc: Global) -> Union
        ensures { IsUnionOf [] result }
    {
        Union {
            names: NameIndex::new(alloc),
            cells: List::new(alloc),
        }
    }

    /// How a cell stands to those that there are.
    fn standing(&self, cell: &Cell) -> Standing
        requires { self.now.names ≡ names_of self.now.cells }
        ensures { StandsAs self.now.cells cell.now result }
    {
        let at = match self.names.find(cell.name.as_slice()) {
            Some(at) => at,
            None => return Standing::New,
        };
        match self.cells.get(at) {
            Some(known) => standing_to(known, cell),
            None => Standing::New,
        }
    }

    /// Puts a cell of a new name at the end.
    fn push(&mut self, cell: &Cell) -> Result<(), AllocError>
        requires names { self.old.names ≡ names_of self.old.cells }
        requires new { StandsAs self.old.cells cell.now New }
        ensures cells { IfOk result (λ _. self.new.cells ≡ self.old.cells ++ cell.now ∷ []) }
        ensures names { IfOk result (λ _. self.new.names ≡ names_of self.new.cells) }
    {
        let copy = copy(cell)?;
        self.names.add(cell.name.as_slice())?;
        self.cells.push(copy)?;
        Ok(())
    }

    /// Takes in a further cell, which is `false` where it is given otherwise.
    fn take(&mut self, cell: &Cell) -> Result<bool, AllocError>
        requires { self.old.names ≡ names_of self.old.cells }
        ensures takes { IfOk result (λ taken. Takes self.old cell.now taken self.new) }
        ensures names { IfOk result (λ _. self.new.names ≡ names_of self.new.cells) }
    {
        match self.standing(cell) {
            Standing::New => {
                self.push(cell)?;
                Ok(true)
            }
            Standing::Alike => Ok(true),
            Standing::Otherwise => Ok(false),
        }
    }

    /// Takes in further cells.
    fn take_all(&mut self, cells: &[Cell]) -> Result<(), LibFault>
        requires { self.old.names ≡ names_of self.old.cells }
        ensures takes { TakesAll self.old cells.now result self.new }
        ensures names { IfOk result (λ _. self.new.names ≡ names_of self.new.cells) }
    {
        for cell in cells {
            let taken = match self.take(cell) {
                Ok(taken) => taken,
                Err(_) => return Err(LibFault::Memory),
            };
            if !taken {
                return Err(given_otherwise(cell, 0));
            }
        }
        Ok(())
    }
}

/// The fault of a cell that is given otherwise, at a line.
fn given_otherwise(cell: &Cell, line: u32) -> LibFault
    ensures { IsOtherwiseAt line cell.now result }
{
    match cell.name.clone() {
        Ok(name) => LibFault::L2(At { line, name }),
        Err(_) => LibFault::Memory,
    }
}

/// The cells of a library's groups, each once.
pub(crate) fn joined_groups(alloc: Global, placed: &[PlacedCell]) -> Result<Cells, LibFault>
    ensures { JoinsPlaced placed.now result }
{
    let mut union = Union::new(alloc);
    for group in placed {
        let taken = match union.take(&group.cell) {
            Ok(taken) => taken,
            Err(_) => return Err(LibFault::Memory),
        };
        if !taken {
            return Err(given_otherwise(&group.cell, group.line));
        }
    }
    Ok(Cells { cells: union.cells })
}

/// The cells of both, in order: one that is given again alike stands once, at the place where it first came. The first
/// that is given with other pins or roles is the fault, at line 0.
pub fn join_cells(alloc: Global, all: &Cells, more: &Cells) -> Result<Cells, LibFault>
    ensures { IsJoin all.now more.now result }
{
    let mut union = Union::new(alloc);
    union.take_all(all.cells.as_slice())?;
    union.take_all(more.cells.as_slice())?;
    Ok(Cells { cells: union.cells })
}
