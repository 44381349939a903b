//! What is unknown among the parts of a line, and what is missing.
ghost use Rattle.std.specs.Prelude.{◌≡◌, map, option_map, is_some, filter_map};
ghost use Rattle.std.specs.List.{list_any};
ghost use Rattle.upf_commands.specs.Commands.{own_word, option_given, lacking_option, unknown_words, missing_options, missing, is_given};
ghost use Rattle.upf_reader.specs.Parts.{part_view};
ghost use Rattle.upf_reader.specs.Readings.{first_of, lacks_own};
ghost use Rattle.upf_reader.specs.Rows.{command_view};

use crate::parts::Part;
use crate::table::CommandLine;

/// The first word that is no option of the command.
pub(crate) fn first_unknown(parts: &[Part]) -> Option<&[u8]>
    ensures { option_map (λ name. name.now) result ≡ first_of (unknown_words (map part_view parts.now)) }
{
    for part in parts {
        if let Part::Unknown(word) = part {
            return Some(word.as_slice());
        }
    }
    None
}

/// The first option that lacks its value.
fn first_lacking(parts: &[Part]) -> Option<&'static [u8]>
    ensures { option_map (λ name. name.now) result ≡ first_of (filter_map lacking_option (map part_view parts.now)) }
{
    for part in parts {
        if let Part::Lacking(option) = part {
            return Some(option.kept);
        }
    }
    None
}

/// Whether the command has got an own word.
pub(crate) fn has_own(parts: &[Part]) -> bool
    ensures { result ≡ list_any (λ i. is_some (own_word i)) (map part_view parts.now) }
{
    for part in parts {
        if let Part::Own(_) = part {
            return true;
        }
    }
    false
}

/// The name of the option that a part gives.
pub(crate) fn option_given(part: &Part) -> Option<&'static [u8]>
    ensures { option_map (λ name. name.now) result ≡ option_given (part_view part.now) }
{
    match part {
        Part::Given(option, _) => Some(option.kept),
        _ => None,
    }
}

/// Whether an option of this name is given.
pub(crate) fn is_given(name: &[u8], parts: &[Part]) -> bool
    ensures { result ≡ is_given name.now (map part_view parts.now) }
{
    for part in parts {
        if let Some(given) = option_given(part) {
            if name == given {
                return true;
            }
        }
    }
    false
}

/// The first option that the command needs and hasn't got.
fn first_needed(row: &CommandLine, parts: &[Part]) -> Option<&'static [u8]>
    ensures { option_map (λ name. name.now) result ≡ first_of (missing_options (command_view row.now) (map part_view parts.now)) }
{
    for option in row.options {
        if option.needed && !is_given(option.kept, parts) {
            return Some(option.kept);
        }
    }
    None
}

/// Whether the command needs an own word and hasn't got one.
fn lacks_own(row: &CommandLine, parts: &[Part]) -> bool
    ensures { result ≡ lacks_own (command_view row.now) (map part_view parts.now) }
{
    row.own.is_some() && !has_own(parts)
}

/// The first that is missing: a value, the command's own word, or an option.
pub(crate) fn first_missing(row: &CommandLine, parts: &[Part]) -> Option<&'static [u8]>
    ensures { option_map (λ name. name.now) result ≡ first_of (missing (command_view row.now) (map part_view parts.now)) }
{
    if let Some(name) = first_lacking(parts) {
        return Some(name);
    }
    if lacks_own(row, parts) {
        return Some(row.name);
    }
    first_needed(row, parts)
}
