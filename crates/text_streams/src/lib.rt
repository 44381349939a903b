//! What readers of texts share: the bytes at the front of a text, a place in it with its line, and why a parser stops.
//!
//! A lexer goes from place to place by [`Place::moved`], and `piece_step` of `proofs/PlaceLaws` says that it follows
//! `pieces_from` of `text_defs`. A parser over the tokens that are left meets `Answers` of `specs/Answers`, and
//! `proofs/AnswerLaws` has what a loop over phrases in a row keeps.
#![tactic(auto)]

mod bytes;
mod places;
mod stops;

pub use bytes::{begins_with, behind, closed_by, front, is_white};
pub use places::{Place, last_line};
pub use stops::Stop;
