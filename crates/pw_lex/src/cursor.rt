//! A place in a text, which goes on byte by byte.
ghost use Rattle.std.specs.Prelude.{◌≡◌, ◌+◌, ◌∷◌, ◌++◌, [], List, min, MatchOption, slice_get};
ghost use Rattle.text_defs.specs.Lines.{newlines};
ghost use Rattle.pw_lex.specs.Cursors.{beginning};

use std::marker::Model;

/// A place in a text: the bytes behind it are read, and those in front of it are left.
#[derive(Drop)]
pub struct Cursor<'a> {
    text: &'a [u8],
    place: usize,
    line: u32,
}

impl<'a> Model for Cursor<'a> {
    ghost use Rattle.pw_lex.specs.Cursors.{Place, place_in, IsPlace};

    ghost Value = { Place };

    ghost view = { λ c. place_in c.text.now c.place };

    ghost invariant = { λ c. IsPlace c.text.now c.place c.line };
}

impl<'a> Cursor<'a> {
    /// The beginning of a text, which is at line 1.
    pub fn new(text: &'a [u8]) -> Cursor<'a>
        ensures { result ≡ beginning text.now }
    {
        Cursor {
            text,
            place: 0,
            line: 1,
        }
    }

    /// The next byte, which is `None` exactly at the text's end.
    pub fn peek(&self) -> Option<u8>
        ensures { result ≡ slice_get self.now.left 0 }
    {
        self.text.get(self.place).copied()
    }

    /// Takes the next byte and goes past it. `None` comes exactly at the text's end.
    pub fn take(&mut self) -> Option<u8>
        ensures { MatchOption result ((self.old.left ≡ []) × (self.new ≡ self.old)) (λ byte. (self.old.left ≡ byte ∷ self.new.left) × (self.new.read ≡ self.old.read ++ byte ∷ [])) }
    {
        let byte = *self.text.get(self.place)?;
        if byte == b'\n' {
            self.line = self.line.saturating_add(1);
        }
        self.place += 1;
        Some(byte)
    }

    /// One more than the newlines that were taken. Past 4,294,967,295 it stays there.
    pub fn line(&self) -> u32
        ensures { result ≡ min (1 + newlines self.now.read) 4294967295 }
    {
        self.line
    }
}
