//! Large designs in rows, made and read whole.
ghost use Rattle.std.specs.Prelude.{◌≤◌, IfSome};
ghost use Rattle.design_rows.specs.Sound.{AreRows};

use crate::Told;
use design_rows::Rows;
use large_designs::{flat, nested, read_all};
use std::alloc::{AllocError, Global};

/// How many cells a block has.
const BLOCK_CELLS: u32 = 300;

/// What is counted of a flat design of so many cells, which is `None` where the word is no such number.
pub fn flat_told(alloc: Global, size: &str) -> Result<Option<Told>, AllocError> {
    let Some(size) = size_of(size) else {
        return Ok(None);
    };
    let rows = flat(alloc, size)?;
    Ok(Some(counts_told(alloc, &rows)?))
}

/// What is counted of so many instances of a block, which is `None` where the word is no such number.
pub fn nested_told(alloc: Global, size: &str) -> Result<Option<Told>, AllocError> {
    let Some(size) = size_of(size) else {
        return Ok(None);
    };
    let rows = nested(alloc, size, BLOCK_CELLS)?;
    Ok(Some(counts_told(alloc, &rows)?))
}

/// How many are asked for.
fn size_of(size: &str) -> Option<u32>
    ensures { IfSome result (λ size. size ≤ 1000000) }
{
    let size = size.parse::<u32>().ok()?;
    if size > 1_000_000 { None } else { Some(size) }
}

/// What is counted of a design.
fn counts_told(alloc: Global, rows: &Rows) -> Result<Told, AllocError>
    requires { AreRows rows.now }
{
    let counts = read_all(alloc, rows)?;
    let (insts, bits, on, names) = (counts.insts, counts.bits, counts.on, counts.names);
    let text = format!(in alloc; "instances {insts} bits {bits} fed {on} bytes of names {names}")?;
    Ok(Told::Counts(text))
}
