//! Everything that can be read of a design in rows, counted.
ghost use Rattle.std.specs.Prelude.{◌≡◌, ◌<◌, length, IfOk};
ghost use Rattle.design_rows.specs.Sound.{AreRows};

use design_rows::{Rows, reads};
use pw_defs::Bytes;
use std::alloc::{AllocError, Global};

/// How many instances and bits there are, and sums over what was read of them.
#[derive(Clone, Copy, Debug)]
pub struct Counts {
    pub insts: u32,
    pub bits: u32,
    /// Bits at which a walk goes on.
    pub on: u64,
    /// The numbers of the owners of all bits.
    pub owners: u64,
    /// Bytes of all paths.
    pub paths: u64,
    /// Bytes of the names of all bits.
    pub names: u64,
}

/// Reads the owner, the next bit and the name of each bit, and the path of each instance.
pub fn read_all(alloc: Global, rows: &Rows) -> Result<Counts, AllocError>
    requires { AreRows rows.now }
    ensures insts { IfOk result (λ counts. counts.insts ≡ length rows.now.insts) }
    ensures bits { IfOk result (λ counts. counts.bits ≡ length rows.now.feeds.items) }
{
    let paths = path_bytes(alloc, rows)?;
    let names = name_bytes(alloc, rows)?;
    Ok(Counts {
        insts: rows.insts.len(),
        bits: bit_count(rows),
        on: bits_fed(rows),
        owners: owner_sum(rows),
        paths,
        names,
    })
}

/// How many bits there are.
pub fn bit_count(rows: &Rows) -> u32
    requires { AreRows rows.now }
    ensures { result ≡ length rows.now.feeds.items }
{
    rows.feeds.len() as u32
}

/// At how many bits a walk goes on.
fn bits_fed(rows: &Rows) -> u64
    requires { AreRows rows.now }
{
    let mut count = 0_u64;
    for n in 0..bit_count(rows) {
        if reads::next(rows, n).is_some() {
            count = count.saturating_add(1);
        }
    }
    count
}

/// The sum of the numbers of the owners of all bits.
fn owner_sum(rows: &Rows) -> u64
    requires { AreRows rows.now }
{
    let mut sum = 0_u64;
    for n in 0..bit_count(rows) {
        sum = sum.saturating_add(reads::owner(rows, n) as u64);
    }
    sum
}

/// How many bytes all paths have.
fn path_bytes(alloc: Global, rows: &Rows) -> Result<u64, AllocError>
    requires { AreRows rows.now }
{
    let mut bytes = 0_u64;
    for n in 0..rows.insts.len() {
        bytes = bytes.saturating_add(path_len(alloc, rows, n)?);
    }
    Ok(bytes)
}

/// How many bytes the names of all bits have.
fn name_bytes(alloc: Global, rows: &Rows) -> Result<u64, AllocError>
    requires { AreRows rows.now }
{
    let mut bytes = 0_u64;
    for n in 0..bit_count(rows) {
        bytes = bytes.saturating_add(name_len(alloc, rows, n)?);
    }
    Ok(bytes)
}

fn path_len(alloc: Global, rows: &Rows, n: u32) -> Result<u64, AllocError>
    requires rows { AreRows rows.now }
    requires within { n < length rows.now.insts }
{
    let mut path = Bytes::new(alloc);
    reads::put_path(rows, n, &mut path)?;
    Ok(path.len() as u64)
}

fn name_len(alloc: Global, rows: &Rows, n: u32) -> Result<u64, AllocError>
    requires rows { AreRows rows.now }
    requires within { n < length rows.now.feeds.items }
{
    let mut name = Bytes::new(alloc);
    reads::put_bit_name(rows, n, &mut name)?;
    Ok(name.len() as u64)
}
