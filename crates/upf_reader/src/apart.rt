//! Options of which a command takes at most one.
ghost use Rattle.std.specs.Prelude.{◌≡◌, map, filter_map};
ghost use Rattle.std.specs.List.{list_any};
ghost use Rattle.std.specs.Str.{bytes_eq};
ghost use Rattle.upf_commands.specs.Commands.{option_given, are_apart, may_give};
ghost use Rattle.upf_reader.specs.Parts.{part_view};
ghost use Rattle.upf_reader.specs.Readings.{is_grouped, share_group};
ghost use Rattle.upf_reader.specs.Rows.{command_view, option_view};

use crate::lacks::{is_given, option_given};
use crate::parts::Part;
use crate::table::{CommandLine, OptionLine};
use crate::words::is_one_of;

/// Whether some group of options of which the command takes at most one has this one.
fn is_grouped(row: &CommandLine, name: &[u8]) -> bool
    ensures { result ≡ is_grouped (command_view row.now) name.now }
{
    for group in row.apart {
        if is_one_of(group, name) {
            return true;
        }
    }
    false
}

/// Whether some such group has both options.
fn share_group(row: &CommandLine, name: &[u8], other: &[u8]) -> bool
    ensures { result ≡ share_group (command_view row.now) name.now other.now }
{
    for group in row.apart {
        if is_one_of(group, name) && is_one_of(group, other) {
            return true;
        }
    }
    false
}

/// Whether the command takes at most one of the two options.
fn are_apart(row: &CommandLine, name: &[u8], other: &[u8]) -> bool
    ensures { result ≡ are_apart (command_view row.now) name.now other.now }
{
    name != other && share_group(row, name, other)
}

/// Whether one of the parts gives an option from which this one is apart.
fn is_apart(row: &CommandLine, name: &[u8], parts: &[Part]) -> bool
    ensures { result ≡ list_any (are_apart (command_view row.now) name.now) (filter_map option_given (map part_view parts.now)) }
{
    if !is_grouped(row, name) {
        return false;
    }
    for part in parts {
        if let Some(other) = option_given(part) {
            if are_apart(row, name, other) {
                return true;
            }
        }
    }
    false
}

/// Whether the option may stand behind these parts.
pub(crate) fn may_give(row: &CommandLine, parts: &[Part], option: &OptionLine) -> bool
    ensures { result ≡ may_give (command_view row.now) (map part_view parts.now) (option_view option.now) }
{
    (option.repeats || !is_given(option.kept, parts)) && !is_apart(row, option.kept, parts)
}
