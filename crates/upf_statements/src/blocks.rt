//! Lines put together: a line that begins a power model has the lines up to its end as its body.
ghost use Rattle.std.specs.Prelude.{◌≡◌, ◌+◌, ◌<◌, ◌≤◌, ◌^◌, ◌++◌, ◌∷◌, [], Some, length, slice_get, slice_range, IfOk, OnOk};
ghost use Rattle.std.specs.List.{AllZip};
ghost use Rattle.script_defs.specs.Blocks.{begins_model, blocks_of, ends_model, has_first_word};
ghost use Rattle.upf_statements.specs.Blocks.{AreBlocksSoFar, IsBlockAt};

use pw_defs::{Bytes, Line, List, Memory};
use std::alloc::Global;

/// A line among lines, with those of its body, which only a power model has: they go from the one behind it up to `end`,
/// which isn't among them. `ended` tells whether a power model's end was found.
#[derive(Clone, Copy, PartialEq, Eq)]
pub struct Block {
    pub at: u32,
    pub end: u32,
    pub ended: bool,
}

impl Block {
    /// The line that it begins with.
    pub fn head(self, lines: &[Line]) -> &Line
        requires { self.at < length lines.now }
        ensures { slice_get lines.now self.at ≡ Some result.now }
    {
        &lines[self.at as usize]
    }

    /// The lines of its body.
    pub fn body(self, lines: &[Line]) -> &[Line]
        requires inside { self.at < self.end }
        requires end { self.end ≤ length lines.now }
        ensures { result.now ≡ slice_range lines.now (self.at + 1) self.end }
    {
        &lines[self.at as usize + 1..self.end as usize]
    }
}

/// Whether the first of the words is the name.
fn has_first_word(name: &[u8], words: &[Bytes]) -> bool
    ensures { result ≡ has_first_word name.now words.now }
{
    match words {
        [word, ..] => name == word.as_slice(),
        [] => false,
    }
}

/// Whether the line begins a power model.
pub fn begins_model(line: &Line) -> bool
    ensures { result ≡ begins_model line.now }
{
    has_first_word(b"begin_power_model", line.words.as_slice())
}

/// Whether the line ends a power model.
pub fn ends_model(line: &Line) -> bool
    ensures { result ≡ ends_model line.now }
{
    has_first_word(b"end_power_model", line.words.as_slice())
}

/// Adds a block.
fn put_block(blocks: &mut List<Block>, block: Block) -> Result<(), Memory>
    ensures { OnOk result (blocks.new ≡ blocks.old ++ block ∷ []) }
{
    blocks.push(block)?;
    Ok(())
}

/// Goes on behind a line, where `started` is the place of the power model that is open before it, and answers that of the one
/// that is open behind it.
fn behind_line(
    lines: &[Line],
    at: u32,
    started: Option<u32>,
    blocks: &mut List<Block>,
) -> Result<Option<u32>, Memory>
    requires within { at < length lines.now }
    requires limit { length lines.now < 2 ^ 32 }
    requires before { AreBlocksSoFar lines.now at started blocks.old }
    ensures { IfOk result (λ next. AreBlocksSoFar lines.now (at + 1) next blocks.new) }
{
    let line = &lines[at as usize];
    let Some(head) = started else {
        if begins_model(line) {
            return Ok(Some(at));
        }
        put_block(
            blocks,
            Block {
                at,
                end: at + 1,
                ended: true,
            },
        )?;
        return Ok(None);
    };
    if !ends_model(line) {
        return Ok(Some(head));
    }
    put_block(
        blocks,
        Block {
            at: head,
            end: at,
            ended: true,
        },
    )?;
    Ok(None)
}

/// Puts lines together, of a text or of a power model's body, without a copy of them.
pub fn blocks_of(alloc: Global, lines: &[Line]) -> Result<List<Block>, Memory>
    requires { length lines.now < 2 ^ 32 }
    ensures { IfOk result (λ blocks. AllZip (IsBlockAt lines.now) blocks (blocks_of lines.now)) }
{
    let count = lines.len() as u32;
    let mut blocks = List::new(alloc);
    let mut started = None;
    for at in 0..count {
        started = behind_line(lines, at, started, &mut blocks)?;
    }
    let Some(head) = started else {
        return Ok(blocks);
    };
    put_block(
        &mut blocks,
        Block {
            at: head,
            end: count,
            ended: false,
        },
    )?;
    Ok(blocks)
}
