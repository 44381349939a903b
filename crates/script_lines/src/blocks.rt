//! Lines put together: a line that begins a power model, with the lines up to its end.
ghost use Rattle.std.specs.Prelude.{◌≡◌, ◌<◌, ◌≤◌, ◌+◌, ◌∷◌, ◌++◌, [], Some, None, IfOk, length, drop, slice_range};
ghost use Rattle.script_defs.specs.Blocks.{is_line_of, begins_model, ends_model, blocks_of, blocks_behind};
ghost use Rattle.script_lines.specs.Taken.{IsTaken, IsBodyOf};

use crate::shared::Lines;
use pw_defs::{Line, Memory};
use std::marker::Model;

/// A line with the lines of its body, which only a line that begins a power model has.
#[derive(Drop)]
pub struct Block<'a> {
    head: &'a Line,
    lines: &'a Lines,
    from: u32,
    to: u32,
    ended: bool,
}

impl<'a> Model for Block<'a> {
    ghost use Rattle.std.specs.Prelude.{◌≤◌, length, slice_range};
    ghost use Rattle.script_defs.specs.Blocks.{Block as PlainBlock};

    ghost Value = { PlainBlock };

    ghost view = { λ b. record { head = b.head.now; body = slice_range b.lines.now b.from b.to; ended = b.ended } };

    ghost invariant = { λ b. (b.from ≤ b.to) × (b.to ≤ length b.lines.now) };
}

impl<'a> Block<'a> {
    /// The line itself.
    pub fn head(&self) -> &'a Line
        ensures { result.now ≡ self.now.head }
    {
        self.head
    }

    /// The lines of its body.
    pub fn body(&self) -> &'a [Line]
        ensures { result.now ≡ self.now.body }
    {
        let lines = self.lines.as_slice();
        &lines[self.from as usize..self.to as usize]
    }

    /// The lines of its body, shared.
    pub fn share_body(&self) -> Result<Lines, Memory>
        ensures { IfOk result (λ lines. lines ≡ self.now.body) }
    {
        self.lines.part(self.from, self.to)
    }

    /// Whether the end of its body was found.
    pub fn is_ended(&self) -> bool
        ensures { result ≡ self.now.ended }
    {
        self.ended
    }
}

/// Whether a line is of this command.
pub fn is_line_of(name: &[u8], line: &Line) -> bool
    ensures { result ≡ is_line_of name.now line.now }
{
    match line.words.as_slice().first() {
        Some(word) => name == word.as_slice(),
        None => false,
    }
}

/// Whether a line begins a power model.
pub fn begins_model(line: &Line) -> bool
    ensures { result ≡ begins_model line.now }
{
    is_line_of(b"begin_power_model", line)
}

/// Whether a line ends a power model.
pub fn ends_model(line: &Line) -> bool
    ensures { result ≡ ends_model line.now }
{
    is_line_of(b"end_power_model", line)
}

/// The first place from one on at which a power model ends, or the end of the lines.
fn end_of_model(lines: &[Line], from: usize) -> usize
    requires { from ≤ length lines.now }
    ensures { IsBodyOf lines.now from result }
{
    let mut to = from;
    while to < lines.len() && !ends_model(&lines[to]) {
        to += 1;
    }
    to
}

/// The block that begins at a place, and the place behind it.
pub fn take_block(lines: &Lines, at: u32) -> (Block<'_>, u32)
    requires { at < length lines.now }
    ensures { IsTaken lines.now at result.0 result.1 }
{
    let all = lines.as_slice();
    let head = &all[at as usize];
    let from = at + 1;
    if !begins_model(head) {
        let block = Block {
            head,
            lines,
            from,
            to: from,
            ended: true,
        };
        return (block, from);
    }
    let end = end_of_model(all, from as usize);
    let to = end as u32;
    if end < all.len() {
        let block = Block {
            head,
            lines,
            from,
            to,
            ended: true,
        };
        return (block, to + 1);
    }
    let block = Block {
        head,
        lines,
        from,
        to,
        ended: false,
    };
    (block, to)
}
