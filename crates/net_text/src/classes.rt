//! Classes of tokens, by the bytes that they have.
ghost use Rattle.std.specs.Prelude.{◌≡◌};
ghost use Rattle.std.specs.List.{list_any};
ghost use Rattle.list_defs.specs.Members.{same_name};
ghost use Rattle.net_text.specs.DirectWords.{begins_small};
ghost use Rattle.net_text.specs.NetlistTokens.{word_class, mark_class, digits_class, left_out_words};
ghost use Rattle.net_text.specs.TokenViews.{class_view};

use crate::runs;

/// What a token is.
#[derive(Clone, Copy, Debug, PartialEq, Eq)]
pub enum NetClass {
    Module,
    Endmodule,
    Input,
    Output,
    Wire,
    Assign,
    Name,
    /// A number that may stand in ranges and selects.
    Number,
    Constant,
    Open,
    Shut,
    LeftBracket,
    RightBracket,
    LeftBrace,
    RightBrace,
    Comma,
    Dot,
    Colon,
    Semicolon,
    Equals,
    Inout,
    /// A word of the language that is left out.
    LeftOut,
    /// Anything else.
    Stray,
}

/// Whether a word is one of these.
fn is_among(word: &[u8], words: &[&[u8]]) -> bool
    ensures { result ≡ list_any (λ w. same_name word.now w.now) words.now }
{
    words.iter().any(|other| word == *other)
}

/// Words of 2 letters that are left out.
static TWO: [&[u8]; 1] = [b"or"];

/// Words of 3 letters that are left out.
static THREE: [&[u8]; 8] = [
    b"reg", b"tri", b"wor", b"and", b"nor", b"xor", b"not", b"buf",
];

/// Words of 4 letters that are left out.
static FOUR: [&[u8]; 8] = [
    b"task", b"tri0", b"tri1", b"wand", b"nand", b"xnor", b"real", b"time",
];

/// Words of 5 letters that are left out.
static FIVE: [&[u8]; 1] = [b"event"];

/// Words of 6 letters that are left out.
static SIX: [&[u8]; 6] = [
    b"always", b"genvar", b"bufif0", b"bufif1", b"notif0", b"notif1",
];

/// Words of 7 letters that are left out.
static SEVEN: [&[u8]; 5] = [b"initial", b"integer", b"specify", b"supply0", b"supply1"];

/// Words of 8 letters that are left out.
static EIGHT: [&[u8]; 3] = [b"defparam", b"function", b"generate"];

/// Words of 9 letters that are left out.
static NINE: [&[u8]; 2] = [b"parameter", b"primitive"];

/// Words of 10 letters that are left out.
static TEN: [&[u8]; 1] = [b"localparam"];

/// Whether a word is one of the language that is left out. It is looked for among those of its length.
#[tactic(auto, unfolding(crate::specs::NetlistTokens::left_out_words), using(crate::proofs::WordLaws::among_length))]
fn is_left_out(word: &[u8]) -> bool
    ensures { result ≡ list_any (same_name word.now) left_out_words }
{
    match word.len() {
        2 => is_among(word, &TWO),
        3 => is_among(word, &THREE),
        4 => is_among(word, &FOUR),
        5 => is_among(word, &FIVE),
        6 => is_among(word, &SIX),
        7 => is_among(word, &SEVEN),
        8 => is_among(word, &EIGHT),
        9 => is_among(word, &NINE),
        10 => is_among(word, &TEN),
        _ => false,
    }
}

/// Whether a word begins with two small letters, as each reserved word does.
fn begins_small(word: &[u8]) -> bool
    ensures { result ≡ begins_small word.now }
{
    match word {
        [first, second, ..] => first.is_ascii_lowercase() && second.is_ascii_lowercase(),
        _ => false,
    }
}

/// The class of a plain identifier.
#[tactic(auto, using(crate::proofs::WordLaws::not_reserved))]
pub fn word_class(word: &[u8]) -> NetClass
    ensures { class_view result ≡ word_class word.now }
{
    if !begins_small(word) {
        return NetClass::Name;
    }
    small_word_class(word)
}

/// The class of a plain identifier that may be a reserved word.
#[tactic(auto, unfolding(crate::specs::NetlistTokens::word_class))]
fn small_word_class(word: &[u8]) -> NetClass
    ensures { class_view result ≡ word_class word.now }
{
    if word == b"module".as_slice() {
        return NetClass::Module;
    }
    if word == b"endmodule".as_slice() {
        return NetClass::Endmodule;
    }
    if word == b"input".as_slice() {
        return NetClass::Input;
    }
    if word == b"output".as_slice() {
        return NetClass::Output;
    }
    if word == b"inout".as_slice() {
        return NetClass::Inout;
    }
    if word == b"wire".as_slice() {
        return NetClass::Wire;
    }
    if word == b"assign".as_slice() {
        return NetClass::Assign;
    }
    if is_left_out(word) {
        return NetClass::LeftOut;
    }
    NetClass::Name
}

/// The class of any other byte.
pub fn mark_class(byte: u8) -> NetClass
    ensures { class_view result ≡ mark_class byte }
{
    match byte {
        b'(' => NetClass::Open,
        b')' => NetClass::Shut,
        b'[' => NetClass::LeftBracket,
        b']' => NetClass::RightBracket,
        b'{' => NetClass::LeftBrace,
        b'}' => NetClass::RightBrace,
        b',' => NetClass::Comma,
        b'.' => NetClass::Dot,
        b':' => NetClass::Colon,
        b';' => NetClass::Semicolon,
        b'=' => NetClass::Equals,
        _ => NetClass::Stray,
    }
}

/// The class of digits.
pub fn digits_class(digits: &[u8]) -> NetClass
    ensures { class_view result ≡ digits_class digits.now }
{
    if runs::number_of(digits) <= 65535 {
        NetClass::Number
    } else {
        NetClass::Stray
    }
}
