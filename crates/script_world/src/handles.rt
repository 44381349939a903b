//! The two sets of a domain that have a name of their own, `D.primary` and `D.default_isolation`.
ghost use Rattle.std.specs.Prelude.{◌≡◌, ◌<◌, ◌+◌, false, true, codes, drop, length, map, option_map, take, IfNone, IfSome};
ghost use Rattle.std.specs.List.{after_last, before_last, list_any};
ghost use Rattle.list_defs.specs.Members.{same_name};
ghost use Rattle.script_defs.specs.LookUps.{handle_in, handle_named, is_dot};
ghost use Rattle.script_world.specs.Handles.{handle_name_seen, parts_seen, IsLastDot};

/// Which of the two sets of a domain it is.
#[derive(Clone, Copy, Debug, PartialEq, Eq)]
pub enum HandleName {
    Primary,
    DefaultIsolation,
}

fn is_primary(word: &[u8]) -> bool
    ensures { result ≡ same_name word.now (codes "primary") }
{
    word == b"primary".as_slice()
}

fn is_default_isolation(word: &[u8]) -> bool
    ensures { result ≡ same_name word.now (codes "default_isolation") }
{
    word == b"default_isolation".as_slice()
}

/// The handle that a word is, if it is one.
fn handle_named(word: &[u8]) -> Option<HandleName>
    ensures { option_map handle_name_seen result ≡ handle_named word.now }
{
    if is_primary(word) {
        return Some(HandleName::Primary);
    }
    if is_default_isolation(word) {
        return Some(HandleName::DefaultIsolation);
    }
    None
}

/// The place of the last dot in a name, if it has one.
fn last_dot(name: &[u8]) -> Option<usize>
    ensures some { IfSome result (IsLastDot name.now) }
    ensures none { IfNone result (list_any is_dot name.now ≡ false) }
{
    let mut end = name.len();
    while end > 0 {
        if name[end - 1] == b'.' {
            return Some(end - 1);
        }
        end -= 1;
    }
    None
}

/// The domain and the handle that a name is of, if it is of the form `D.primary` or `D.default_isolation`.
pub fn handle_in(name: &[u8]) -> Option<(&[u8], HandleName)>
    ensures { parts_seen result ≡ handle_in name.now }
{
    let dot = last_dot(name)?;
    let handle = handle_named(&name[dot + 1..])?;
    Some((&name[..dot], handle))
}
