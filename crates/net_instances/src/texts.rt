//! Instances are compared by their paths, name by name, without writing the paths out.
ghost use Rattle.std.specs.Prelude.{◌≡◌, ◌≢◌, ◌<◌, ◌≤◌, ℕ, List, [], ◌∷◌, length, take, drop, slice_index};
ghost use Rattle.design_defs.specs.Hierarchy.{Way, way_cmp};
ghost use Rattle.list_defs.specs.Orders.{name_cmp};
ghost use Rattle.net_instances.specs.Ways.{AreNamed, IsDown, IsLeft, IsShared, IsStep, by_first, first_byte, slashed};

use crate::tree::{TreeRow, name_in, parent_in};
use module_rows::Modules;
use std::cmp::Ordering;

/// The instance right below one, on the way from that down to another.
fn step_down(rows: &[TreeRow], from: u32, to: u32) -> u32
    ensures within { from < to → (from < result) × (result ≤ to) }
    ensures step { (symbols : List (List ℕ)) → (way : Way) → from < to → IsDown symbols rows.now from to way → IsStep symbols rows.now from to way result }
{
    let mut below = to;
    let mut parent = parent_in(rows, below);
    while parent > from {
        below = parent;
        parent = parent_in(rows, below);
    }
    below
}

/// The innermost instance that two are at or below.
fn shared_by(rows: &[TreeRow], a: u32, b: u32) -> u32
    ensures within { (result ≤ a) × (result ≤ b) }
    ensures shared { (symbols : List (List ℕ)) → (v w : Way) → IsDown symbols rows.now 0 a v → IsDown symbols rows.now 0 b w → IsShared symbols rows.now a b v w result }
{
    let mut left = a;
    let mut right = b;
    while left != right {
        if left < right {
            right = parent_in(rows, right);
        } else {
            left = parent_in(rows, left);
        }
    }
    left
}

/// How many bytes two names begin alike with.
pub(crate) fn alike(left: &[u8], right: &[u8]) -> usize
    ensures left { result ≤ length left.now }
    ensures right { result ≤ length right.now }
    ensures same { take result left.now ≡ take result right.now }
    ensures all { (result < length left.now) → (result < length right.now) → slice_index left.now result ≢ slice_index right.now result }
{
    let count = left.len().min(right.len());
    for at in 0..count {
        if left[at] != right[at] {
            return at;
        }
    }
    count
}

/// What is left of a name behind so many bytes.
fn behind(name: &[u8], count: usize) -> &[u8]
    requires { count ≤ length name.now }
    ensures { result.now ≡ drop count name.now }
{
    name.split_at(count).1
}

/// The first byte of what is left of a text: of the name that is being read, or the slash before the next one.
fn first_byte(at: u32, rest: &[u8], to: u32) -> Option<u8>
    ensures { result ≡ first_byte at rest.now to }
{
    match rest.first() {
        Some(byte) => Some(*byte),
        None => { if at < to { Some(b'/') } else { None } }
    }
}

/// Where the text goes on behind its first byte.
fn next_place<'a>(
    modules: &'a Modules,
    rows: &[TreeRow],
    at: u32,
    rest: &'a [u8],
    to: u32,
) -> (u32, &'a [u8])
    ensures within { at ≤ to → (at ≤ result.0) × (result.0 ≤ to) }
    ensures further { rest.now ≡ [] → at < to → at < result.0 }
    ensures text { (byte : ℕ) → (more : List ℕ) → IsLeft modules.now.symbols rows.now to at rest.now (byte ∷ more)
        → IsLeft modules.now.symbols rows.now to result.0 result.1.now more }
{
    match rest.split_first() {
        Some((_, tail)) => (at, tail),
        None => {
            if at < to {
                let below = step_down(rows, at, to);
                (below, name_in(modules, rows, below))
            } else {
                (at, rest)
            }
        }
    }
}

/// How two texts compare by their first bytes, `None` where these are the same.
pub(crate) fn by_first(first: Option<u8>, second: Option<u8>) -> Option<Ordering>
    ensures { result ≡ by_first first second }
{
    match first {
        None => match second {
            None => Some(Ordering::Equal),
            Some(_) => Some(Ordering::Less),
        },
        Some(left) => match second {
            None => Some(Ordering::Greater),
            Some(right) => {
                if left < right {
                    Some(Ordering::Less)
                } else if left == right {
                    None
                } else {
                    Some(Ordering::Greater)
                }
            }
        },
    }
}

/// Compares the paths of two instances, where no name is empty.
fn compare_texts(modules: &Modules, rows: &[TreeRow], a: u32, b: u32) -> Ordering
    ensures { (v w : Way) → IsDown modules.now.symbols rows.now 0 a v → IsDown modules.now.symbols rows.now 0 b w → result ≡ name_cmp (slashed v) (slashed w) }
{
    let shared = shared_by(rows, a, b);
    let mut left = shared;
    let mut right = shared;
    let mut left_rest: &[u8] = &[];
    let mut right_rest: &[u8] = &[];
    loop {
        let count = alike(left_rest, right_rest);
        let left_end = behind(left_rest, count);
        let right_end = behind(right_rest, count);
        match by_first(
            first_byte(left, left_end, a),
            first_byte(right, right_end, b),
        ) {
            Some(order) => return order,
            None => {}
        }
        let (left_next, left_name) = next_place(modules, rows, left, left_end, a);
        let (right_next, right_name) = next_place(modules, rows, right, right_end, b);
        left = left_next;
        left_rest = left_name;
        right = right_next;
        right_rest = right_name;
    }
}

/// Compares two instances by their paths, and where these are the same, by what they are inside.
pub(crate) fn compare(modules: &Modules, rows: &[TreeRow], a: u32, b: u32) -> Ordering
    ensures { (v w : Way) → IsDown modules.now.symbols rows.now 0 a v → IsDown modules.now.symbols rows.now 0 b w → AreNamed v → AreNamed w → result ≡ way_cmp v w }
{
    let mut left = a;
    let mut right = b;
    while left != right {
        match compare_texts(modules, rows, left, right) {
            Ordering::Equal => {}
            Ordering::Less => return Ordering::Less,
            Ordering::Greater => return Ordering::Greater,
        }
        left = parent_in(rows, left);
        right = parent_in(rows, right);
    }
    Ordering::Equal
}
