//! The row of bytes with the place at which each name ends.
ghost use Rattle.std.specs.Prelude.{◌≡◌, ◌<◌, ◌≤◌, ◌++◌, ◌∷◌, [], Some, IfSome, OnOk, OnErr, length, slice_get, slice_index};
ghost use Rattle.name_rows.specs.Cuts.{AreCuts, cuts};

use plain_lists::Bytes;
use std::alloc::{AllocError, Global};
use std::marker::Model;

/// At most 4,294,967,295 names of at most as many bytes together, in the order in which they were added.
#[derive(Drop)]
pub struct Names {
    bytes: Vec<u8>,
    ends: Vec<u32>,
}

impl Model for Names {
    ghost use Rattle.std.specs.Prelude.{ℕ, List};
    ghost use Rattle.name_rows.specs.Cuts.{AreNames, cuts};

    ghost Value = { List (List ℕ) };

    ghost view = { λ names. cuts names.bytes.items 0 names.ends.items };

    ghost invariant = { λ names. AreNames names.bytes.items names.ends.items };
}

impl Names {
    pub fn new(alloc: Global) -> Names
        ensures { result ≡ [] }
    {
        Names {
            bytes: Vec::new(alloc),
            ends: Vec::new(alloc),
        }
    }

    /// How many names there are.
    pub fn len(&self) -> u32
        ensures { result ≡ length self.now }
    {
        self.ends.len() as u32
    }

    /// The name at a place, which is one of those that there are.
    pub fn name(&self, at: u32) -> &[u8]
        requires { at < length self.now }
        ensures { slice_get self.now at ≡ Some result.now }
    {
        part(self.bytes.as_slice(), self.ends.as_slice(), at as usize)
    }

    /// Appends the name at a place to a text.
    pub fn put(&self, at: u32, out: &mut Bytes) -> Result<(), AllocError>
        requires { at < length self.now }
        ensures ok { OnOk result (IfSome (slice_get self.now at) (λ name. out.new ≡ out.old ++ name)) }
        ensures err { OnErr result (out.new ≡ out.old) }
    {
        out.put(self.name(at))
    }

    /// Adds a name at the end. An error leaves the names as they were.
    pub fn push(&mut self, name: &[u8]) -> Result<(), AllocError>
        ensures ok { OnOk result (self.new ≡ self.old ++ name.now ∷ []) }
        ensures err { OnErr result (self.new ≡ self.old) }
    {
        let count = self.ends.len();
        let length = self.bytes.len();
        if count >= 4294967295 || name.len() > 4294967295 - length {
            return Err(AllocError);
        }
        self.ends.reserve(1)?;
        self.bytes.extend_from_slice(name)?;
        let end = (length + name.len()) as u32;
        self.ends.push_reserved(end);
        Ok(())
    }
}

/// The part at a place of a row that is cut at `ends`.
#[tactic(auto, using(crate::proofs::CutLemmas::parts))]
fn part<'a>(row: &'a [u8], ends: &[u32], at: usize) -> &'a [u8]
    requires cut { AreCuts 0 ends.now (length row.now) }
    requires within { at < length ends.now }
    ensures { slice_get (cuts row.now 0 ends.now) at ≡ Some result.now }
{
    let start = start_of(row, ends, at) as usize;
    let end = ends[at] as usize;
    &row[start..end]
}

/// Where the part at a place starts: at the end of the one before it.
fn start_of(row: &[u8], ends: &[u32], at: usize) -> u32
    requires cut { AreCuts 0 ends.now (length row.now) }
    requires within { at < length ends.now }
    ensures start { result ≡ slice_index (0 ∷ ends.now) at }
    ensures rises { result ≤ slice_index ends.now at }
    ensures within { slice_index ends.now at ≤ length row.now }
{
    if at == 0 { 0 } else { ends[at - 1] }
}
