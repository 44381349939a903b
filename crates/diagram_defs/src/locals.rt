//! Sets of whole states that the values from some level on decide.

/// The whole states whose rest of a level is in the set of a number.
#[derive(Clone, Copy, Debug, PartialEq, Eq)]
pub struct Local {
    pub level: u32,
    pub number: u32,
}
