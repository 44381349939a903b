//! What is inside an instance, found by name: the instances stand in order by what they are inside and by name.
ghost use Rattle.std.specs.Prelude.{◌≡◌, ℕ, ◌<◌, length, MatchOption};
ghost use Rattle.design_rows.specs.Children.{HasChildren, IsChild, key_cmp, key_of};
ghost use Rattle.design_rows.specs.Sound.{AreRows};

use crate::reads;
use crate::tables::Rows;
use std::cmp::Ordering;

/// How an instance stands to those of this name inside this instance.
fn child_order(rows: &Rows, n: u32, outer: u32, name: &[u8]) -> Ordering
    requires rows { AreRows rows.now }
    requires within { n < length rows.now.insts }
    ensures { result ≡ key_cmp (key_of rows.now n) (outer, name.now) }
{
    let instance = reads::instance(rows, n);
    let names = rows.names.name(instance.name).cmp(name);
    instance.parent.cmp(&outer).then(names)
}

/// The instance that is inside this one and has this name there.
pub fn child(rows: &Rows, outer: u32, name: &[u8]) -> Option<u32>
    requires rows { AreRows rows.now }
    requires children { HasChildren rows.now }
    ensures { MatchOption result ((n : ℕ) → IsChild rows.now outer name.now n → ⊥) (λ n. IsChild rows.now outer name.now n) }
{
    let children = rows.children.as_slice();
    let mut low = 0;
    let mut high = children.len();
    while low < high {
        let middle = low + (high - low) / 2;
        let n = children[middle];
        match child_order(rows, n, outer, name) {
            Ordering::Less => low = middle + 1,
            Ordering::Greater => high = middle,
            Ordering::Equal => return Some(n),
        }
    }
    None
}
