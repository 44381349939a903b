//! The group of a cell: what it says of the cell and of its pins.
ghost use Rattle.std.specs.Prelude.{◌≡◌, ◌<◌, ◌≤◌, ◌∷◌, ◌++◌, [], IfErr, IfOk, OnOk, codes, length, map};
ghost use Rattle.list_defs.specs.Members.{same_name};
ghost use Rattle.std.specs.List.{flat_map};
ghost use Rattle.text_defs.specs.Phrases.{many};
ghost use Rattle.text_defs.specs.Tokens.{of_class};
ghost use Rattle.text_streams.specs.declared.stops.Stop.TheVariants as stops;
ghost use Rattle.lib_cells.specs.CellViews.{draft_view, entry_view, group_view, part_said};
ghost use Rattle.lib_cells.specs.Groups.{arguments, block, cell_entry, is_word, most, names_in, pins_behind, present};
ghost use Rattle.lib_cells.specs.Kept.{Shows, behind_head};
ghost use Rattle.lib_cells.specs.Marks.{cell_said, said_then};
ghost use Rattle.lib_cells.specs.Streams.{word_view};

use crate::attributes::attribute_block;
use crate::lexer::Word;
use crate::marks::Marks;
use crate::names::names_in;
use crate::phrases::{arguments, only_argument, semicolon, value};
use crate::skips::{behind_skipped, block_end};
use crate::tokens::{Tokens, Wanted};
use pw_defs::List;
use std::alloc::Global;
use text_streams::Stop;

/// A group of pins: their names, and what its attributes say.
#[derive(Drop)]
pub struct PinGroup<'a> {
    pub names: List<&'a [u8]>,
    pub marks: Marks,
}

/// What an entry of a cell's group says: of the cell, or of pins.
#[derive(Drop)]
pub struct CellEntry<'a> {
    pub marks: Marks,
    pub group: Option<PinGroup<'a>>,
}

/// What the group of a cell says: of the cell, and of its pins, group by group.
#[derive(Drop)]
pub struct CellDraft<'a> {
    pub marks: Marks,
    pub groups: List<PinGroup<'a>>,
}

/// The names of pins between parentheses.
fn pin_names<'a>(alloc: Global, tokens: &mut Tokens<'a>) -> Result<List<&'a [u8]>, Stop>
    ensures answers { Shows (map (λ n. n.now)) (flat_map names_in) arguments tokens.old result tokens.new }
    ensures shorter { OnOk result (length tokens.new < length tokens.old) }
{
    let words = arguments(alloc, tokens)?;
    let names = names_in(alloc, words.as_slice())?;
    Ok(names)
}

/// The block of pins of these names.
#[tactic(auto, unfolding(text_defs::specs::Grammar::read))]
fn pins_behind<'a>(
    tokens: &mut Tokens<'a>,
    depth: u32,
    names: List<&'a [u8]>,
) -> Result<Option<PinGroup<'a>>, Stop>
    ensures answers { Shows group_view part_said (pins_behind depth (map (λ n. n.now) names.entry)) tokens.old result tokens.new }
    ensures longer { OnOk result (length tokens.new ≤ length tokens.old) }
{
    if names.is_empty() {
        semicolon(tokens)?;
        return Ok(None);
    }
    if !tokens.is_next(Wanted::LeftBrace) {
        semicolon(tokens)?;
        return Ok(None);
    }
    let marks = attribute_block(tokens, depth)?;
    Ok(Some(PinGroup { names, marks }))
}

/// Whether a word is `pin`.
fn is_pin(head: Word<'_>) -> bool
    ensures { result ≡ same_name head.entry.text.now (codes "pin") }
{
    head.text == b"pin".as_slice()
}

/// What stands behind the word of an entry that is no attribute: a group of pins, or what is passed over.
#[tactic(auto, unfolding(text_defs::specs::Grammar::read))]
fn behind_head<'a>(
    alloc: Global,
    tokens: &mut Tokens<'a>,
    depth: u32,
    head: Word<'a>,
) -> Result<Option<PinGroup<'a>>, Stop>
    requires { depth < 4294967295 }
    ensures answers { Shows group_view part_said (behind_head depth (word_view head.entry)) tokens.old result tokens.new }
    ensures shorter { OnOk result (length tokens.new < length tokens.old) }
{
    if !is_pin(head) {
        only_argument(tokens)?;
        behind_skipped(tokens, depth + 1)?;
        return Ok(None);
    }
    let names = pin_names(alloc, tokens)?;
    let group = pins_behind(tokens, depth, names)?;
    Ok(group)
}

/// An entry of a cell's group.
#[tactic(auto, unfolding(text_defs::specs::Grammar::read))]
fn cell_entry<'a>(alloc: Global, tokens: &mut Tokens<'a>, depth: u32) -> Result<CellEntry<'a>, Stop>
    requires { depth < 4294967295 }
    ensures answers { Shows entry_view part_said (cell_entry depth) tokens.old result tokens.new }
    ensures shorter { OnOk result (length tokens.new < length tokens.old) }
{
    let head = tokens.one(Wanted::Word)?;
    if tokens.is_next(Wanted::Colon) {
        let word = value(tokens)?;
        return Ok(CellEntry {
            marks: Marks::of(head.text, word),
            group: None,
        });
    }
    let group = behind_head(alloc, tokens, depth, head)?;
    Ok(CellEntry {
        marks: Marks::none(),
        group,
    })
}

/// Puts a thing, if it is there, behind others.
pub fn keep<T: Drop>(all: &mut List<T>, thing: Option<T>) -> Result<(), Stop>
    ensures kept { OnOk result (all.new ≡ all.old ++ present (thing ∷ [])) }
    ensures memory { IfErr result (λ e. e ≡ stops.Memory) }
{
    if let Some(thing) = thing {
        all.push(thing)?;
    }
    Ok(())
}

/// What was said before an entry, and the entry.
fn with_entry<'a>(said: CellDraft<'a>, entry: CellEntry<'a>) -> Result<CellDraft<'a>, Stop>
    ensures said { IfOk result (λ longer. draft_view longer ≡ said_then (draft_view said.entry) (entry_view entry.entry)) }
    ensures memory { IfErr result (λ e. e ≡ stops.Memory) }
{
    let mut groups = said.groups;
    keep(&mut groups, entry.group)?;
    Ok(CellDraft {
        marks: said.marks.over(entry.marks),
        groups,
    })
}

/// What entries one behind the other say.
fn cell_entries<'a>(
    alloc: Global,
    tokens: &mut Tokens<'a>,
    depth: u32,
) -> Result<CellDraft<'a>, Stop>
    requires { depth < 4294967295 }
    ensures answers { Shows draft_view (λ parts. cell_said (present parts)) (many most (of_class is_word) (cell_entry depth)) tokens.old result tokens.new }
    ensures longer { OnOk result (length tokens.new ≤ length tokens.old) }
{
    let mut all = CellDraft {
        marks: Marks::none(),
        groups: List::new(alloc),
    };
    let mut count = 0;
    while tokens.is_next(Wanted::Word) {
        if count == u32::MAX {
            return Err(Stop::Memory);
        }
        let entry = cell_entry(alloc, tokens, depth)?;
        all = with_entry(all, entry)?;
        count += 1;
    }
    Ok(all)
}

/// What the block of a cell says.
#[tactic(auto, unfolding(text_defs::specs::Grammar::read))]
pub fn cell_block<'a>(
    alloc: Global,
    tokens: &mut Tokens<'a>,
    depth: u32,
) -> Result<CellDraft<'a>, Stop>
    requires { depth < 4294967295 }
    ensures answers { Shows draft_view (λ parts. cell_said (present parts)) (block (cell_entry depth)) tokens.old result tokens.new }
    ensures shorter { OnOk result (length tokens.new < length tokens.old) }
{
    tokens.one(Wanted::LeftBrace)?;
    let all = cell_entries(alloc, tokens, depth)?;
    block_end(tokens)?;
    Ok(all)
}
