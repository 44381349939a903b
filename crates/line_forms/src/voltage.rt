//! Voltages as they are written.
ghost use Rattle.std.specs.Prelude.{◌≡◌, ℕ, ◌≤◌, ◌==◌, length, take, drop, codes, IfSome};
ghost use Rattle.std.specs.List.{position_or_len, before_first};
ghost use Rattle.text_defs.specs.Volts.{is_point, decimals_of};
ghost use Rattle.line_forms.specs.ScriptReading.{number_from, unit_of, volts_of, value_of};

use pw_defs::Value;

/// The highest voltage, in microvolts.
const HIGHEST: u64 = 1_000_000_000;

/// The number that digits write when they follow those of `number`, while it is at most [`HIGHEST`].
fn number_from(number: u64, digits: &[u8]) -> Option<u64>
    requires { number ≤ 1000000000 }
    ensures value { result ≡ number_from number digits.now }
    ensures highest { IfSome result (λ n. n ≤ 1000000000) }
{
    let mut number = number;
    for byte in digits {
        if !byte.is_ascii_digit() {
            return None;
        }
        let next = number * 10 + u64::from(*byte - b'0');
        if next > HIGHEST {
            return None;
        }
        number = next;
    }
    Some(number)
}

/// The microvolts that the last of so many decimals counts, where there are at most six.
#[tactic(auto, unfolding(crate::specs::ScriptReading::unit_of))]
fn unit_of(decimals: usize) -> Option<u64>
    ensures { result ≡ unit_of decimals }
{
    match decimals {
        0 => Some(1_000_000),
        1 => Some(100_000),
        2 => Some(10_000),
        3 => Some(1_000),
        4 => Some(100),
        5 => Some(10),
        6 => Some(1),
        _ => None,
    }
}

/// The place of the decimal point, or the length where there is none.
fn point(text: &[u8]) -> usize
    ensures place { result ≡ position_or_len is_point text.now }
    ensures within { result ≤ length text.now }
{
    text.iter().take_while(|byte| **byte != b'.').count()
}

/// The digits before the decimal point, and those behind it.
fn parts(text: &[u8]) -> (&[u8], &[u8])
    ensures whole { result.0.now ≡ before_first is_point text.now }
    ensures decimals { result.1.now ≡ decimals_of text.now }
{
    let (whole, rest) = text.split_at(point(text));
    match rest {
        [_, decimals @ ..] => (whole, decimals),
        [] => (whole, rest),
    }
}

/// The microvolts of a text that is a voltage: decimal digits, at least one, with at most one point and at most six
/// of them behind it, and no more than 1000 V.
#[tactic(auto, unfolding(crate::specs::ScriptReading::volts_of))]
fn microvolts(text: &[u8]) -> Option<u32>
    ensures { result ≡ volts_of text.now }
{
    let (whole, decimals) = parts(text);
    if whole.is_empty() && decimals.is_empty() {
        return None;
    }
    let unit = unit_of(decimals.len())?;
    let number = number_from(0, whole)?;
    let number = number_from(number, decimals)?;
    let microvolts = number.saturating_mul(unit);
    if microvolts > HIGHEST {
        return None;
    }
    Some(microvolts as u32)
}

/// The value that a word says, which is `off` or a voltage.
#[tactic(auto, unfolding(crate::specs::ScriptReading::value_of))]
pub fn value_of(word: &[u8]) -> Option<Value>
    ensures { result ≡ value_of word.now }
{
    if word == b"off".as_slice() {
        return Some(Value::Off);
    }
    match microvolts(word) {
        Some(microvolts) => Some(Value::On(microvolts)),
        None => None,
    }
}
