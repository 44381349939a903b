//! Scripts as words, and commands with their options.

use plain_lists::{Bytes, List, Name};

/// The words of a command, at the line where it begins.
#[derive(Drop)]
pub struct Line {
    pub number: u32,
    pub words: List<Bytes>,
}

/// An option that was given, with its value.
#[derive(Clone, Drop, PartialEq, Eq)]
pub struct Given {
    pub option: Name,
    pub value: Bytes,
    pub line: u32,
}

/// The options of a command, in order.
#[derive(Drop)]
pub struct Options {
    pub given: List<Given>,
}

/// A command of the intent. `passed` says that it is passed over and counted.
#[derive(Drop)]
pub struct Command {
    pub name: Name,
    pub args: List<Bytes>,
    pub options: Options,
    pub line: u32,
    pub passed: bool,
}
