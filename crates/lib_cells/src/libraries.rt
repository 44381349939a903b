//! The outer group of a library, of which the cells are read.
ghost use Rattle.std.specs.Prelude.{◌≡◌, ◌<◌, ◌≤◌, OnOk, codes, length, map};
ghost use Rattle.list_defs.specs.Members.{same_name};
ghost use Rattle.std.specs.Option.{option_map};
ghost use Rattle.text_defs.specs.Phrases.{many};
ghost use Rattle.text_defs.specs.Tokens.{of_class};
ghost use Rattle.lib_cells.specs.CellViews.{placed_by, placed_of};
ghost use Rattle.lib_cells.specs.Groups.{block, cell_entry, is_word, library_entry, library_group, most, present};
ghost use Rattle.lib_cells.specs.Kept.{Shows, behind_word, cell_group};
ghost use Rattle.lib_cells.specs.Readings.{IsCutAt, ReadsGroups, ShowsWhole};
ghost use Rattle.lib_cells.specs.Streams.{word_view};

use crate::cells::{cell_block, keep};
use crate::lexer::Word;
use crate::phrases::{only_argument, semicolon, value};
use crate::pins::cell_of;
use crate::skips::{behind_skipped, block_end};
use crate::tokens::{Tokens, Wanted};
use pw_defs::{At, Cell, LibFault, List, Name};
use std::alloc::Global;
use text_streams::Stop;

/// How deep groups nest in an entry of a cell's group.
const DEPTH: u32 = 97;

/// A cell, and the line of the word `cell` of its group.
#[derive(Drop)]
pub struct PlacedCell {
    pub cell: Cell,
    pub line: u32,
}

/// The cell of a name, by the block of its group.
fn cell_of_block<'a>(
    alloc: Global,
    tokens: &mut Tokens<'a>,
    line: u32,
    name: &[u8],
) -> Result<PlacedCell, Stop>
    ensures answers { Shows (λ cell. cell) (placed_by line name.now) (block (cell_entry 97)) tokens.old result tokens.new }
    ensures shorter { OnOk result (length tokens.new < length tokens.old) }
{
    let said = cell_block(alloc, tokens, DEPTH)?;
    let cell = cell_of(alloc, name, said)?;
    Ok(PlacedCell { cell, line })
}

/// The cell of a group, by its one name, behind the word `cell` and its arguments.
#[tactic(auto, unfolding(text_defs::specs::Grammar::read))]
fn cell_group<'a>(
    alloc: Global,
    tokens: &mut Tokens<'a>,
    line: u32,
    name: Option<&'a [u8]>,
) -> Result<Option<PlacedCell>, Stop>
    ensures answers { Shows (λ cell. cell) (option_map placed_of) (cell_group 97 line (option_map (λ n. n.now) name.entry)) tokens.old result tokens.new }
    ensures longer { OnOk result (length tokens.new ≤ length tokens.old) }
{
    let name = match name {
        Some(name) => name,
        None => {
            semicolon(tokens)?;
            return Ok(None);
        }
    };
    if !tokens.is_next(Wanted::LeftBrace) {
        semicolon(tokens)?;
        return Ok(None);
    }
    let cell = cell_of_block(alloc, tokens, line, name)?;
    Ok(Some(cell))
}

/// Whether a word is `cell`.
fn is_cell(head: Word<'_>) -> bool
    ensures { result ≡ same_name head.entry.text.now (codes "cell") }
{
    head.text == b"cell".as_slice()
}

/// The cell of a group, or nothing, behind a word and its arguments.
#[tactic(auto, unfolding(text_defs::specs::Grammar::read))]
fn behind_word<'a>(
    alloc: Global,
    tokens: &mut Tokens<'a>,
    head: Word<'a>,
    name: Option<&'a [u8]>,
) -> Result<Option<PlacedCell>, Stop>
    ensures answers { Shows (λ cell. cell) (option_map placed_of) (behind_word 97 (word_view head.entry) (option_map (λ n. n.now) name.entry)) tokens.old result tokens.new }
    ensures longer { OnOk result (length tokens.new ≤ length tokens.old) }
{
    if !is_cell(head) {
        behind_skipped(tokens, DEPTH + 2)?;
        return Ok(None);
    }
    let cell = cell_group(alloc, tokens, head.line, name)?;
    Ok(cell)
}

/// An entry of a library.
#[tactic(auto, unfolding(text_defs::specs::Grammar::read))]
fn library_entry<'a>(alloc: Global, tokens: &mut Tokens<'a>) -> Result<Option<PlacedCell>, Stop>
    ensures answers { Shows (λ cell. cell) (option_map placed_of) (library_entry 97) tokens.old result tokens.new }
    ensures shorter { OnOk result (length tokens.new < length tokens.old) }
{
    let head = tokens.one(Wanted::Word)?;
    if tokens.is_next(Wanted::Colon) {
        value(tokens)?;
        return Ok(None);
    }
    let name = only_argument(tokens)?;
    let cell = behind_word(alloc, tokens, head, name)?;
    Ok(cell)
}

/// The cells of entries one behind the other.
fn library_entries<'a>(alloc: Global, tokens: &mut Tokens<'a>) -> Result<List<PlacedCell>, Stop>
    ensures answers { Shows (λ cells. cells) (λ entries. map placed_of (present entries)) (many most (of_class is_word) (library_entry 97)) tokens.old result tokens.new }
    ensures longer { OnOk result (length tokens.new ≤ length tokens.old) }
{
    let mut all = List::new(alloc);
    let mut count = 0;
    while tokens.is_next(Wanted::Word) {
        if count == u32::MAX {
            return Err(Stop::Memory);
        }
        let cell = library_entry(alloc, tokens)?;
        keep(&mut all, cell)?;
        count += 1;
    }
    Ok(all)
}

/// The cells of the outer group.
#[tactic(auto, unfolding(text_defs::specs::Grammar::read, crate::specs::Groups::library_group))]
fn library_group<'a>(alloc: Global, tokens: &mut Tokens<'a>) -> Result<List<PlacedCell>, Stop>
    ensures answers { Shows (λ cells. cells) (map placed_of) library_group tokens.old result tokens.new }
    ensures shorter { OnOk result (length tokens.new < length tokens.old) }
{
    tokens.library_word()?;
    only_argument(tokens)?;
    tokens.one(Wanted::LeftBrace)?;
    let cells = library_entries(alloc, tokens)?;
    block_end(tokens)?;
    Ok(cells)
}

/// The cells of a whole text.
fn whole_library<'a>(alloc: Global, tokens: &mut Tokens<'a>) -> Result<List<PlacedCell>, Stop>
    ensures { ShowsWhole tokens.old result tokens.new }
{
    let cells = library_group(alloc, tokens)?;
    if !tokens.is_empty() {
        return Err(Stop::Fault);
    }
    Ok(cells)
}

/// The fault of a text that is cut short at a line.
fn cut_short(alloc: Global, line: u32) -> LibFault
    ensures { IsCutAt line result }
{
    match Name::from_slice(alloc, b"-") {
        Ok(name) => LibFault::L1(At { line, name }),
        Err(_) => LibFault::Memory,
    }
}

/// The cells of a text's groups, in order, each with the line of its group.
pub fn placed_cells(alloc: Global, text: &[u8]) -> Result<List<PlacedCell>, LibFault>
    ensures { ReadsGroups text.now result }
{
    let mut tokens = Tokens::new(text);
    match whole_library(alloc, &mut tokens) {
        Ok(cells) => Ok(cells),
        Err(Stop::Memory) => Err(LibFault::Memory),
        Err(Stop::Fault) => Err(cut_short(alloc, tokens.line(text))),
    }
}
