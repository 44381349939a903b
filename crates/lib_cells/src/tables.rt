//! The pins of a cell by their names, each with what is said of it.
ghost use Rattle.std.specs.Prelude.{◌≡◌, ◌<◌, ◌∷◌, ◌++◌, [], List, IfErr, IfOk, Some, length, map, slice_get, slice_set};
ghost use Rattle.list_defs.specs.Members.{place_of, same_name};
ghost use Rattle.text_streams.specs.declared.stops.Stop.TheVariants as stops;
ghost use Rattle.lib_cells.specs.CellViews.{IsTableOf, pins_view};
ghost use Rattle.lib_cells.specs.Marks.{overlaid};
ghost use Rattle.lib_cells.specs.Mentions.{AreSaid, IsLevel, Mention, SaysAt, SaysMore, mentions_of};
ghost use Rattle.lib_cells.specs.declared.marks.Marks.{Marks as AnyMarks};

use crate::cells::PinGroup;
use crate::marks::Marks;
use name_index::NameIndex;
use std::alloc::Global;
use text_streams::Stop;

/// Names of pins in the order in which they first come, and what is said of each.
#[derive(Drop)]
pub struct PinTable {
    pub names: NameIndex,
    pub marks: Vec<Marks>,
}

/// What is said of a pin that is there, with what is said more.
fn put_over(all: &mut Vec<Marks>, at: usize, marks: Marks)
    requires { at < length all.old.items }
    ensures { (m : AnyMarks) × (slice_get all.old.items at ≡ Some m) × (all.new.items ≡ slice_set all.old.items at (overlaid m marks)) }
{
    let both = all[at].over(marks);
    all[at] = both;
}

impl PinTable {
    fn new(alloc: Global) -> PinTable
        ensures said { AreSaid [] result }
        ensures level { IsLevel result }
    {
        PinTable {
            names: NameIndex::new(alloc),
            marks: Vec::new(alloc),
        }
    }

    /// Adds a pin that isn't there yet.
    fn add(&mut self, name: &[u8], marks: Marks) -> Result<(), Stop>
        requires level { IsLevel self.old }
        requires new { place_of (same_name name.now) self.old.names ≡ None }
        ensures said { IfOk result (λ _. SaysAt self.old self.new name.now marks None) }
        ensures level { IfOk result (λ _. IsLevel self.new) }
        ensures memory { IfErr result (λ e. e ≡ stops.Memory) }
    {
        let _number = self.names.number(name)?;
        self.marks.push(marks)?;
        Ok(())
    }

    /// Adds what is said of a pin.
    fn say(&mut self, name: &[u8], marks: Marks) -> Result<(), Stop>
        requires { IsLevel self.old }
        ensures said { IfOk result (λ _. SaysMore self.old self.new name.now marks) }
        ensures level { IfOk result (λ _. IsLevel self.new) }
        ensures memory { IfErr result (λ e. e ≡ stops.Memory) }
    {
        match self.names.find(name) {
            None => self.add(name, marks)?,
            Some(at) => put_over(&mut self.marks, at as usize, marks),
        }
        Ok(())
    }

    /// Adds what is said of a group of pins.
    fn say_all(&mut self, group: &PinGroup<'_>) -> Result<(), Stop>
        requires { IsLevel self.old }
        ensures said { IfOk result (λ _. (before : List Mention) → AreSaid before self.old → AreSaid (before ++ mentions_of (pins_view group.now)) self.new) }
        ensures level { IfOk result (λ _. IsLevel self.new) }
        ensures memory { IfErr result (λ e. e ≡ stops.Memory) }
    {
        let names = group.names.as_slice();
        for name in names {
            self.say(*name, group.marks)?;
        }
        Ok(())
    }
}

/// The pins that groups name.
pub fn pin_table(alloc: Global, groups: &[PinGroup<'_>]) -> Result<PinTable, Stop>
    ensures table { IfOk result (λ t. IsTableOf (map pins_view groups.now) t) }
    ensures level { IfOk result (λ t. IsLevel t) }
    ensures memory { IfErr result (λ e. e ≡ stops.Memory) }
{
    let mut table = PinTable::new(alloc);
    for group in groups {
        table.say_all(group)?;
    }
    Ok(table)
}
