//! The fault of a text, by the token at which it cannot go on.
ghost use Rattle.std.specs.Prelude.{◌≡◌, IfOk};
ghost use Rattle.std.specs.Option.{option_map};
ghost use Rattle.text_defs.specs.Grammar.{next};
ghost use Rattle.net_text.specs.TokenViews.{class_view};
ghost use Rattle.net_text.specs.Streams.{word_view};
ghost use Rattle.net_text.specs.Stopped.{IsFaultNext, fault_next, fault_of_class, place_next};

use crate::classes::NetClass;
use crate::tokens::Tokens;
use crate::words::Word;
use pw_defs::{At, Name, NetFault};
use std::alloc::{AllocError, Global};
use text_streams::last_line;

/// The place of the next token, or of the end of the text.
fn place_at(alloc: Global, text: &[u8], next: Option<Word<'_>>) -> Result<At, AllocError>
    ensures { IfOk result (λ at. at ≡ place_next text.now (option_map word_view next.entry)) }
{
    match next {
        None => {
            let name = Name::from_slice(alloc, b"-")?;
            Ok(At {
                line: last_line(text),
                name,
            })
        }
        Some(word) => {
            let name = Name::from_slice(alloc, word.text)?;
            Ok(At {
                line: word.line,
                name,
            })
        }
    }
}

/// The fault that a token of a class is, where none of its class can stand.
fn fault_of_class(class: NetClass, at: At) -> NetFault
    ensures { result ≡ fault_of_class (class_view class) at }
{
    match class {
        NetClass::Inout => NetFault::N2(at),
        NetClass::LeftOut => NetFault::N3(at),
        _ => NetFault::N1(at),
    }
}

/// The fault at the next token, or at the end.
fn fault_at(next: Option<Word<'_>>, at: At) -> NetFault
    ensures { result ≡ fault_next (option_map word_view next.entry) at }
{
    match next {
        None => NetFault::N1(at),
        Some(word) => fault_of_class(word.class, at),
    }
}

/// The fault of a text that cannot go on at the next of its tokens, or want of memory.
pub fn fault_next(alloc: Global, text: &[u8], tokens: &Tokens<'_>) -> NetFault
    ensures { IsFaultNext text.now (next tokens.now) result }
{
    let next = tokens.peek();
    match place_at(alloc, text, next) {
        Err(_) => NetFault::Memory,
        Ok(at) => fault_at(next, at),
    }
}
