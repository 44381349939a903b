//! Names below paths.
ghost use Rattle.std.specs.Prelude.{◌≡◌, codes, OnOk};
ghost use Rattle.list_defs.specs.Members.{same_name};
ghost use Rattle.design_defs.specs.Names.{joined};
ghost use Rattle.script_defs.specs.Scopes.{begins_below, path_from, shown_path};

use pw_defs::Memory;

/// Whether a word is `.`, which stands for the scope itself.
pub(crate) fn is_dot(word: &[u8]) -> bool
    ensures { result ≡ same_name word.now (codes ".") }
{
    word == b".".as_slice()
}

/// Joins a name to a path, in place of what was in the buffer.
pub fn join(path: &[u8], name: &[u8], buffer: &mut Vec<u8>) -> Result<(), Memory>
    ensures { OnOk result (buffer.new.items ≡ joined path.now name.now) }
{
    buffer.clear();
    if !path.is_empty() {
        buffer.extend_from_slice(path)?;
        buffer.push(b'/')?;
    }
    buffer.extend_from_slice(name)?;
    Ok(())
}

/// The path of the instance that a word names from a scope, in place of what was in the buffer; `.` names the scope's own.
pub fn join_from(scope: &[u8], word: &[u8], buffer: &mut Vec<u8>) -> Result<(), Memory>
    ensures { OnOk result (buffer.new.items ≡ path_from scope.now word.now) }
{
    if is_dot(word) {
        buffer.clear();
        buffer.extend_from_slice(scope)?;
        return Ok(());
    }
    join(scope, word, buffer)
}

/// A path as refusals show it: that of the top is `.`.
pub fn shown_path(path: &[u8]) -> &[u8]
    ensures { result.now ≡ shown_path path.now }
{
    if path.is_empty() {
        b".".as_slice()
    } else {
        path
    }
}

/// Whether a name stands below an instance, as far as its bytes go.
pub fn begins_below(path: &[u8], name: &[u8]) -> bool
    ensures { result ≡ begins_below path.now name.now }
{
    match name.strip_prefix(path) {
        Some(behind) => behind.starts_with(b"/".as_slice()),
        None => false,
    }
}
