//! Joined names as texts.
ghost use Rattle.std.specs.Prelude.{◌≡◌, IfOk};
ghost use Rattle.design_defs.specs.Names.{joined};

use pw_defs::{Bytes, Memory};
use std::alloc::Global;

/// A name below a path.
pub(crate) fn joined(alloc: Global, path: &[u8], name: &[u8]) -> Result<Bytes, Memory>
    ensures { IfOk result (λ text. text ≡ joined path.now name.now) }
{
    if path.is_empty() {
        return Ok(Bytes::from_slice(alloc, name)?);
    }
    let mut text = Bytes::from_slice(alloc, path)?;
    text.put(b"/")?;
    text.put(name)?;
    Ok(text)
}
