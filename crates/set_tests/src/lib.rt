//! Tests of what no contract of the sets of states says: that a call over kept sets gives its result, and not only want of
//! memory.
#![tactic(auto)]

#[cfg(test)]
mod kept_sets;
