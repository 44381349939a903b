//! Words of scripts: which command lines a script's text is, and which words a list's text is.
#![tactic(auto)]

mod brace_words;
mod kinds;
mod pieces;
mod replaced_texts;
mod scripts;
mod settings;
mod single_words;
mod variables;
mod word_lists;

pub use scripts::read_script;
pub use word_lists::split_list;
