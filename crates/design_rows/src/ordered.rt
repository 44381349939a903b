//! The children of all instances, put in order by what they are inside and by name.
ghost use Rattle.std.specs.Prelude.{◌≡◌, ◌-◌, IfOk, OnOk, OnErr, length};
ghost use Rattle.std.specs.List.{IsAllAdjacentAnswer, range_with_len};
ghost use Rattle.std.specs.List.Sorted.{IsPermutation, IsSorted};
ghost use Rattle.std.specs.Ordering.{is_lt};
ghost use Rattle.design_rows.specs.Children.{child_cmp};
ghost use Rattle.design_rows.specs.Growth.{AreOrdered, with_children};
ghost use Rattle.design_rows.specs.Sound.{AreRows};
ghost use Rattle.design_rows.specs.View.{inst_at, name_at};

use crate::reads;
use crate::tables::{InstanceRow, Rows};
use pw_defs::List;
use std::alloc::AllocError;
use std::cmp::Ordering;

impl Rows {
    /// Puts all instances but the first in order by what they are inside and by name, once all are added.
    ///
    /// Answers whether the names of those inside one instance differ. An error, and names that don't, leave the rows as
    /// they were.
    pub fn order_children(&mut self) -> Result<bool, AllocError>
        ensures ordered { IfOk result (λ apart. AreOrdered self.old self.new apart) }
        ensures kept { self.new ≡ with_children self.old self.new.children }
        ensures rows { AreRows self.old → AreRows self.new }
        ensures err { OnErr result (self.new ≡ self.old) }
    {
        let mut inner = inner_insts(self)?;
        sort(self, &mut inner)?;
        if !are_rising(self, inner.as_slice()) {
            return Ok(false);
        }
        let Some(children) = List::from_vec(inner) else {
            return Err(AllocError);
        };
        self.children = children;
        Ok(true)
    }
}

/// The numbers of all instances but the first.
fn inner_insts(rows: &Rows) -> Result<Vec<u32>, AllocError>
    ensures { IfOk result (λ inner. inner.items ≡ range_with_len 1 (length rows.now.insts - 1)) }
{
    let len = rows.insts.len();
    let mut inner = Vec::with_capacity(*rows.feeds.allocator(), len as usize)?;
    for n in 1..len {
        inner.push(n)?;
    }
    Ok(inner)
}

fn sort(rows: &Rows, list: &mut Vec<u32>) -> Result<(), AllocError>
    ensures same { IsPermutation list.old.items list.new.items }
    ensures sorted { OnOk result (IsSorted (child_cmp rows.now) list.new.items) }
{
    list.sort_by(|one, other| order(rows, *one, *other))
}

/// Whether each instance of a list comes before the next.
fn are_rising(rows: &Rows, list: &[u32]) -> bool
    ensures { IsAllAdjacentAnswer (λ one other rises. rises ≡ is_lt (child_cmp rows.now one other)) list.now result }
{
    list.is_sorted_by(|one, other| order(rows, *one, *other).is_lt())
}

/// How two instances stand to one another.
fn order(rows: &Rows, one: u32, other: u32) -> Ordering
    ensures { result ≡ child_cmp rows.now one other }
{
    let one = row(rows, one);
    let other = row(rows, other);
    match one.parent.cmp(&other.parent) {
        Ordering::Equal => name(rows, one.name).cmp(name(rows, other.name)),
        unlike => unlike,
    }
}

/// An instance, or what is read past the last.
fn row(rows: &Rows, n: u32) -> InstanceRow
    ensures { result ≡ inst_at rows.now n }
{
    if n < rows.insts.len() {
        return reads::instance(rows, n);
    }
    InstanceRow {
        parent: 0,
        name: 0,
        kind: 0,
        first_bit: 0,
    }
}

/// A name, which is empty past the last.
fn name(rows: &Rows, n: u32) -> &[u8]
    ensures { result.now ≡ name_at rows.now n }
{
    if n < rows.names.len() {
        rows.names.name(n)
    } else {
        b""
    }
}
