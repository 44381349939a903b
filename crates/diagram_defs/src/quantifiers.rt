//! All of some sets, or any of them.

/// Whether all of some things are meant, or any of them.
#[derive(Clone, Copy, Debug, PartialEq, Eq)]
pub enum Quantifier {
    All,
    Any,
}
