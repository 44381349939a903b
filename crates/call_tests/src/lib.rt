//! Tests of what no contract says: what a real folder and a real stream do, and what a run does over shelves and sinks that
//! fail. Tables of answers stand in the folder tests/ of the repository, on the built program and on `probe`.
#![tactic(auto)]

#[cfg(test)]
mod outside;
#[cfg(test)]
mod runs;
