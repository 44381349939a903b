//! The tokens of a library's text, one ahead of where it is read.
ghost use Rattle.std.specs.Prelude.{◌≡◌, ◌<◌, ◌&&◌, ◌↔◌, [], IsTrue, OnOk, length, drop, codes};
ghost use Rattle.text_defs.specs.Grammar.{next, passes};
ghost use Rattle.text_defs.specs.Tokens.{line_left, of_class, one_of};
ghost use Rattle.list_defs.specs.Members.{same_name};
ghost use Rattle.text_streams.specs.Answers.{Answers};
ghost use Rattle.lib_cells.specs.LibraryWords.{library_tokens};
ghost use Rattle.lib_cells.specs.Groups.{library_word};
ghost use Rattle.lib_cells.specs.Streams.{class_view, word_view};
ghost use Rattle.lib_cells.specs.TokenTests.{test_of};
ghost use Rattle.lib_cells.specs.declared.tokens.Wanted.TheVariants as wants;

use crate::lexer::{Front, LibClass, Word, first_front, next_word};
use std::marker::Model;
use text_streams::{Stop, last_line};

/// What a token is asked to be.
#[derive(Clone, Copy)]
pub enum Wanted {
    /// A plain word or a last word.
    Word,
    PlainWord,
    LastWord,
    Open,
    Shut,
    LeftBrace,
    RightBrace,
    Colon,
    Semicolon,
    Comma,
    /// A comma or a word.
    Argument,
}

/// The tokens that are left of a text.
#[derive(Drop)]
pub struct Tokens<'a> {
    next: Option<Word<'a>>,
    front: Front<'a>,
}

impl<'a> Model for Tokens<'a> {
    ghost use Rattle.std.specs.Prelude.{List, ◌++◌};
    ghost use Rattle.text_defs.specs.Tokens.{Token};
    ghost use Rattle.lib_cells.specs.LibraryWords.{LibraryClass};
    ghost use Rattle.lib_cells.specs.Streams.{EndsWith, IsFront, tokens_left, word_ahead};

    ghost Value = { List (Token LibraryClass) };

    ghost view = { λ t. word_ahead t.next ++ tokens_left t.front };

    ghost invariant = { λ t. IsFront t.front × EndsWith t.next (tokens_left t.front) };
}

/// Whether a token's class is one that is wanted.
pub fn is_of(wanted: Wanted, class: LibClass) -> bool
    ensures { result ≡ test_of wanted (class_view class) }
{
    match wanted {
        Wanted::Word => matches!(class, LibClass::PlainWord | LibClass::LastWord),
        Wanted::PlainWord => matches!(class, LibClass::PlainWord),
        Wanted::LastWord => matches!(class, LibClass::LastWord),
        Wanted::Open => matches!(class, LibClass::Open),
        Wanted::Shut => matches!(class, LibClass::Shut),
        Wanted::LeftBrace => matches!(class, LibClass::LeftBrace),
        Wanted::RightBrace => matches!(class, LibClass::RightBrace),
        Wanted::Colon => matches!(class, LibClass::Colon),
        Wanted::Semicolon => matches!(class, LibClass::Semicolon),
        Wanted::Comma => matches!(class, LibClass::Comma),
        Wanted::Argument => matches!(
            class,
            LibClass::Comma | LibClass::PlainWord | LibClass::LastWord
        ),
    }
}

/// Whether a token is the word `library`.
fn is_library_word(word: Word<'_>) -> bool
    ensures { result ≡ (test_of wants.Word (class_view word.entry.class) && same_name word.entry.text.now (codes "library")) }
{
    is_of(Wanted::Word, word.class) && word.text == b"library".as_slice()
}

impl<'a> Tokens<'a> {
    /// The tokens of a text.
    pub fn new(text: &'a [u8]) -> Tokens<'a>
        ensures { result ≡ library_tokens text.now }
    {
        let (next, front) = next_word(first_front(text));
        Tokens { next, front }
    }

    /// Whether the next token is one that is wanted.
    pub fn is_next(&self, wanted: Wanted) -> bool
        ensures { result ≡ passes (of_class (test_of wanted)) (next self.now) }
    {
        match self.next {
            None => false,
            Some(word) => is_of(wanted, word.class),
        }
    }

    /// The line of the next token, or that on which `text` ends where none is left.
    pub fn line(&self, text: &[u8]) -> u32
        ensures { result ≡ line_left text.now self.now }
    {
        match self.next {
            None => last_line(text),
            Some(word) => word.line,
        }
    }

    /// Whether none is left.
    pub fn is_empty(&self) -> bool
        ensures { IsTrue result ↔ (self.now ≡ []) }
    {
        self.next.is_none()
    }

    /// Goes on behind the next token.
    fn step(&mut self)
        ensures { self.new ≡ drop 1 self.old }
    {
        let (next, front) = next_word(self.front);
        self.next = next;
        self.front = front;
    }

    /// The next token, which has to be one that is wanted.
    #[tactic(auto, unfolding(text_defs::specs::Grammar::read), using(crate::proofs::TokenLaws::taken_there))]
    pub fn one(&mut self, wanted: Wanted) -> Result<Word<'a>, Stop>
        ensures answers { Answers word_view (one_of (test_of wanted)) self.old result self.new }
        ensures shorter { OnOk result (length self.new < length self.old) }
    {
        let word = match self.next {
            None => return Err(Stop::Fault),
            Some(word) => word,
        };
        if !is_of(wanted, word.class) {
            return Err(Stop::Fault);
        }
        self.step();
        Ok(word)
    }

    /// The next token, which has to be the word `library`.
    #[tactic(auto, unfolding(text_defs::specs::Grammar::read), using(crate::proofs::TokenLaws::taken_there))]
    pub fn library_word(&mut self) -> Result<Word<'a>, Stop>
        ensures answers { Answers word_view library_word self.old result self.new }
        ensures shorter { OnOk result (length self.new < length self.old) }
    {
        let word = match self.next {
            None => return Err(Stop::Fault),
            Some(word) => word,
        };
        if !is_library_word(word) {
            return Err(Stop::Fault);
        }
        self.step();
        Ok(word)
    }
}
