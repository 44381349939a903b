//! The tokens of a netlist's text, one ahead of where it is read.
ghost use Rattle.std.specs.Prelude.{◌≡◌, ◌<◌, IfOk, OnOk, length, drop};
ghost use Rattle.std.specs.Option.{option_map};
ghost use Rattle.text_defs.specs.Grammar.{Grammar, next, passes};
ghost use Rattle.text_defs.specs.Tokens.{one_of, of_class};
ghost use Rattle.net_text.specs.NetlistTokens.{netlist_tokens};
ghost use Rattle.net_text.specs.NetlistClasses.{dir_of, is_direction, begins_header, begins_expr, begins_item};
ghost use Rattle.net_text.specs.TokenViews.{class_view, test_of};
ghost use Rattle.net_text.specs.Sizes.{IsMeasured};
ghost use Rattle.net_text.specs.Streams.{word_view};
ghost use Rattle.text_streams.specs.Answers.{Answers};

use crate::classes::NetClass;
use crate::words::{Word, next_word};
use pw_defs::Dir;
use std::marker::Model;
use text_streams::{Place, Stop};

/// A name in the text, and its line.
#[derive(Clone, Copy)]
pub struct NameAt<'a> {
    pub text: &'a [u8],
    pub line: u32,
}

/// The tokens that are left of a text.
#[derive(Drop)]
pub struct Tokens<'a> {
    next: Option<Word<'a>>,
    place: Place<'a>,
}

impl<'a> Model for Tokens<'a> {
    ghost use Rattle.std.specs.Prelude.{List, ◌++◌};
    ghost use Rattle.text_defs.specs.Tokens.{Token};
    ghost use Rattle.net_text.specs.NetlistTokens.{NetlistClass};
    ghost use Rattle.text_streams.specs.Places.{IsAt};
    ghost use Rattle.net_text.specs.Sizes.{IsNextMeasured};
    ghost use Rattle.net_text.specs.Streams.{ahead, tokens_behind, EndsAt};

    ghost Value = { List (Token NetlistClass) };

    ghost view = { λ t. ahead t.next ++ tokens_behind t.place };

    ghost invariant = { λ t. IsAt t.place × EndsAt t.next (tokens_behind t.place) × IsNextMeasured (ahead t.next) };
}

/// Whether a token's class is this one.
fn is_of(class: NetClass, other: NetClass) -> bool
    ensures { result ≡ test_of class (class_view other) }
{
    match class {
        NetClass::Module => matches!(other, NetClass::Module),
        NetClass::Endmodule => matches!(other, NetClass::Endmodule),
        NetClass::Wire => matches!(other, NetClass::Wire),
        NetClass::Assign => matches!(other, NetClass::Assign),
        NetClass::Name => matches!(other, NetClass::Name),
        NetClass::Number => matches!(other, NetClass::Number),
        NetClass::Constant => matches!(other, NetClass::Constant),
        NetClass::Open => matches!(other, NetClass::Open),
        NetClass::Shut => matches!(other, NetClass::Shut),
        NetClass::LeftBracket => matches!(other, NetClass::LeftBracket),
        NetClass::RightBracket => matches!(other, NetClass::RightBracket),
        NetClass::LeftBrace => matches!(other, NetClass::LeftBrace),
        NetClass::RightBrace => matches!(other, NetClass::RightBrace),
        NetClass::Comma => matches!(other, NetClass::Comma),
        NetClass::Dot => matches!(other, NetClass::Dot),
        NetClass::Colon => matches!(other, NetClass::Colon),
        NetClass::Semicolon => matches!(other, NetClass::Semicolon),
        NetClass::Equals => matches!(other, NetClass::Equals),
        _ => false,
    }
}

/// The direction that a class of words says.
fn dir_of(class: NetClass) -> Option<Dir>
    ensures { result ≡ dir_of (class_view class) }
{
    match class {
        NetClass::Input => Some(Dir::Input),
        NetClass::Output => Some(Dir::Output),
        _ => None,
    }
}

fn is_direction(class: NetClass) -> bool
    ensures { result ≡ is_direction (class_view class) }
{
    matches!(class, NetClass::Input | NetClass::Output)
}

fn begins_header(class: NetClass) -> bool
    ensures { result ≡ begins_header (class_view class) }
{
    matches!(class, NetClass::Name | NetClass::Input | NetClass::Output)
}

fn begins_expr(class: NetClass) -> bool
    ensures { result ≡ begins_expr (class_view class) }
{
    matches!(
        class,
        NetClass::Name | NetClass::Constant | NetClass::LeftBrace
    )
}

fn begins_item(class: NetClass) -> bool
    ensures { result ≡ begins_item (class_view class) }
{
    matches!(
        class,
        NetClass::Input | NetClass::Output | NetClass::Wire | NetClass::Assign | NetClass::Name
    )
}

impl<'a> Tokens<'a> {
    /// The tokens of a text.
    #[tactic(auto, unfolding(crate::specs::Streams::tokens_from))]
    pub fn new(text: &'a [u8]) -> Tokens<'a>
        ensures { result ≡ netlist_tokens text.now }
    {
        let (next, place) = next_word(Place::new(text));
        Tokens { next, place }
    }

    /// The next token, if there is one.
    pub fn peek(&self) -> Option<Word<'a>>
        ensures { option_map word_view result ≡ next self.now }
    {
        self.next
    }

    /// Whether the next token is of a class.
    pub fn is_next(&self, class: NetClass) -> bool
        ensures { result ≡ passes (of_class (test_of class)) (next self.now) }
    {
        match self.next {
            None => false,
            Some(word) => is_of(class, word.class),
        }
    }

    /// Goes on behind the next token.
    fn step(&mut self)
        ensures { self.new ≡ drop 1 self.old }
    {
        let (next, place) = next_word(self.place);
        self.next = next;
        self.place = place;
    }

    /// The next token, which has to be of a class.
    #[tactic(auto, unfolding(text_defs::specs::Grammar::read), using(crate::proofs::StreamLaws::taken_there, crate::proofs::SizeLaws::measured_there))]
    pub fn one(&mut self, class: NetClass) -> Result<Word<'a>, Stop>
        ensures answers { Answers word_view (one_of (test_of class)) self.old result self.new }
        ensures measured { IfOk result (λ word. IsMeasured (class_view class) word.text.now) }
        ensures shorter { OnOk result (length self.new < length self.old) }
    {
        let word = match self.next {
            None => return Err(Stop::Fault),
            Some(word) => word,
        };
        if !is_of(class, word.class) {
            return Err(Stop::Fault);
        }
        self.step();
        Ok(word)
    }

    /// The next token, which has to say a direction.
    #[tactic(auto, unfolding(text_defs::specs::Grammar::read))]
    pub fn direction(&mut self) -> Result<Dir, Stop>
        ensures answers { Answers (λ d. d) (Grammar.token (λ t. dir_of t.class)) self.old result self.new }
        ensures shorter { OnOk result (length self.new < length self.old) }
    {
        let word = match self.next {
            None => return Err(Stop::Fault),
            Some(word) => word,
        };
        match dir_of(word.class) {
            None => Err(Stop::Fault),
            Some(dir) => {
                self.step();
                Ok(dir)
            }
        }
    }

    /// Whether the next token says a direction.
    pub fn is_direction_next(&self) -> bool
        ensures { result ≡ passes (of_class is_direction) (next self.now) }
    {
        match self.next {
            None => false,
            Some(word) => is_direction(word.class),
        }
    }

    /// Whether the next token begins the inside of a header.
    pub fn is_header_next(&self) -> bool
        ensures { result ≡ passes (of_class begins_header) (next self.now) }
    {
        match self.next {
            None => false,
            Some(word) => begins_header(word.class),
        }
    }

    /// Whether the next token begins an expression.
    pub fn is_expr_next(&self) -> bool
        ensures { result ≡ passes (of_class begins_expr) (next self.now) }
    {
        match self.next {
            None => false,
            Some(word) => begins_expr(word.class),
        }
    }

    /// Whether the next token begins an item.
    pub fn is_item_next(&self) -> bool
        ensures { result ≡ passes (of_class begins_item) (next self.now) }
    {
        match self.next {
            None => false,
            Some(word) => begins_item(word.class),
        }
    }
}
