//! A place in a text, with its line.
ghost use Rattle.std.specs.Prelude.{◌≡◌, ℕ, ◌+◌, ◌<◌, ◌≤◌, ◌==◌, ◌&&◌, ◌||◌, cond, min, length, take, drop, true};
ghost use Rattle.text_defs.specs.Lines.{newlines, line_at, last_line};
ghost use Rattle.text_defs.specs.Pieces.{is_blank};
ghost use Rattle.text_streams.specs.Places.{fresh_after, IsAt};

use crate::bytes;

/// A place in a text, with its line, and whether only blanks stand before it on its line.
#[derive(Clone, Copy)]
pub struct Place<'a> {
    pub text: &'a [u8],
    pub at: usize,
    pub line: u32,
    pub fresh: bool,
}

/// How many lines a byte ends.
fn lines_ended(byte: u8) -> usize
    ensures lines { result ≡ cond (byte == 10) 1 0 }
    ensures one { result ≤ 1 }
{
    if byte == b'\n' { 1 } else { 0 }
}

/// How many newlines there are.
fn newlines(bytes: &[u8]) -> usize
    ensures { result ≡ newlines bytes.now }
{
    let mut count: usize = 0;
    for byte in bytes {
        count += lines_ended(*byte);
    }
    count
}

/// The line behind bytes that begin on a line.
fn line_after(line: u32, bytes: &[u8]) -> u32
    ensures { result ≡ min (line + newlines bytes.now) 4294967295 }
{
    let more = newlines(bytes).min(4294967295) as u32;
    line.saturating_add(more)
}

/// The line on which a text ends.
#[tactic(auto, using(crate::proofs::PlaceLaws::ends_on))]
pub fn last_line(text: &[u8]) -> u32
    ensures { result ≡ last_line text.now }
{
    line_after(1, text)
}

/// Whether only blanks stand before what follows a byte, on its line.
fn fresh_behind(fresh: bool, byte: u8) -> bool
    ensures { result ≡ (byte == 10 || (fresh && is_blank byte)) }
{
    byte == b'\n' || (fresh && (byte == b' ' || byte == b'\t'))
}

/// Whether only blanks stand before what follows the bytes, on its line.
fn fresh_after(fresh: bool, bytes: &[u8]) -> bool
    ensures { result ≡ fresh_after fresh bytes.now }
{
    let mut fresh = fresh;
    for byte in bytes {
        fresh = fresh_behind(fresh, *byte);
    }
    fresh
}

impl<'a> Place<'a> {
    /// The place at which a text begins.
    #[tactic(auto, using(crate::proofs::PlaceLaws::starts_at))]
    pub fn new(text: &'a [u8]) -> Place<'a>
        ensures at { IsAt result }
        ensures text { result.text.now ≡ text.now }
        ensures place { result.at ≡ 0 }
        ensures fresh { result.fresh ≡ true }
    {
        Place {
            text,
            at: 0,
            line: 1,
            fresh: true,
        }
    }

    /// The text behind the place.
    pub fn rest(self) -> &'a [u8]
        requires { IsAt self }
        ensures { result.now ≡ drop self.entry.at self.entry.text.now }
    {
        bytes::behind(self.text, self.at)
    }

    /// The place so many bytes on.
    pub fn moved(self, size: usize) -> Place<'a>
        requires at { IsAt self }
        requires size { self.at + size ≤ length self.text.now }
        ensures at { IsAt result }
        ensures text { result.text.now ≡ self.entry.text.now }
        ensures place { result.at ≡ self.entry.at + size }
        ensures fresh { result.fresh ≡ fresh_after self.entry.fresh (take size (drop self.entry.at self.entry.text.now)) }
    {
        let bytes = bytes::front(bytes::behind(self.text, self.at), size);
        Place {
            text: self.text,
            at: self.at + size,
            line: line_after(self.line, bytes),
            fresh: fresh_after(self.fresh, bytes),
        }
    }
}
