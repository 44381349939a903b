//! Whether a name goes on behind another one.
ghost use Rattle.std.specs.Prelude.{◌≡◌, ◌<◌, ℕ, List, Some, false, length, slice_get, take};
ghost use Rattle.list_defs.specs.Members.{IsIn};
ghost use Rattle.net_names.specs.Apart.{GoesOn};
ghost use Rattle.net_names.specs.Marks.{IsFree, IsFreeAt};

use crate::marks::is_marked;
use module_rows::Modules;
use name_index::NameIndex;

/// Of how many bytes a name may be to be looked at. Each front of it is looked up, so that longer ones would take too long.
const MOST_BYTES: usize = 1024;

/// Whether a byte stands at this place of a name, behind a name that bears the mark.
fn goes_on_at(
    modules: &Modules,
    marks: &[u32],
    stamp: u32,
    byte: u8,
    name: &[u8],
    at: usize,
) -> bool
    requires { at < length name.now }
    ensures { result ≡ false → IsFreeAt modules.now.symbols marks.now stamp byte name.now at }
{
    name[at] == byte && is_marked(modules, marks, stamp, &name[..at])
}

/// Whether a name goes on with a byte behind a name that bears the mark, or is too long to be looked at.
pub(crate) fn goes_on(modules: &Modules, marks: &[u32], stamp: u32, byte: u8, name: &[u8]) -> bool
    ensures { result ≡ false → IsFree modules.now.symbols marks.now stamp byte name.now }
{
    if name.len() > MOST_BYTES {
        return true;
    }
    for at in 0..name.len() {
        if goes_on_at(modules, marks, stamp, byte, name, at) {
            return true;
        }
    }
    false
}

/// Whether an opening bracket stands at this place of a name, behind one of the index.
fn is_bracket_at(index: &NameIndex, name: &[u8], at: usize) -> bool
    requires { at < length name.now }
    ensures { result ≡ false → slice_get name.now at ≡ Some 91 → IsIn (take at name.now) index.now → ⊥ }
{
    name[at] == b'[' && index.find(&name[..at]).is_some()
}

/// Whether a name goes on with an opening bracket behind one of the index, or is too long to be looked at.
pub(crate) fn has_bracket(index: &NameIndex, name: &[u8]) -> bool
    ensures { result ≡ false → (front : List ℕ) → GoesOn 91 front name.now → IsIn front index.now → ⊥ }
{
    if name.len() > MOST_BYTES {
        return true;
    }
    for at in 0..name.len() {
        if is_bracket_at(index, name, at) {
            return true;
        }
    }
    false
}
