//! Voltages as they are written: what `IsVolts` says, and why another text is none.
ghost use Rattle.std.specs.Prelude.{◌≡◌, ◌≤◌, ◌-◌, ◌^◌, ◌↔◌, IsTrue, IfOk, IfErr, length, min};
ghost use Rattle.std.specs.List.{position_or_len, before_first};
ghost use Rattle.std.specs.Str.Parse.{AllDigits, digits_value_after};
ghost use Rattle.text_defs.specs.Volts.{is_point, decimals_of, IsVolts};
ghost use Rattle.pw_lex.specs.VoltForms.{IsVoltFault};

use pw_defs::VoltFault;

/// The highest voltage, in microvolts.
const HIGHEST: u64 = 1_000_000_000;

/// A number above the highest voltage, which stands for all of them.
const ABOVE: u64 = HIGHEST + 1;

/// The place of the decimal point, or the length where there is none.
fn point(text: &[u8]) -> usize
    ensures place { result ≡ position_or_len is_point text.now }
    ensures within { result ≤ length text.now }
{
    text.iter().take_while(|byte| **byte != b'.').count()
}

/// The text before the decimal point, and the text behind it.
fn parts(text: &[u8]) -> (&[u8], &[u8])
    ensures whole { result.0.now ≡ before_first is_point text.now }
    ensures decimals { result.1.now ≡ decimals_of text.now }
{
    let (whole, rest) = text.split_at(point(text));
    match rest {
        [_, decimals @ ..] => (whole, decimals),
        [] => (whole, rest),
    }
}

/// Whether a text is of digits alone.
fn are_digits(text: &[u8]) -> bool
    ensures { IsTrue result ↔ AllDigits 10 text.now }
{
    for byte in text {
        if !byte.is_ascii_digit() {
            return false;
        }
    }
    true
}

/// The number that digits write when they follow those of `number`, or `ABOVE` where it is no less.
fn number_from(number: u64, digits: &[u8]) -> u64
    requires few { number ≤ 1000000001 }
    requires digits { AllDigits 10 digits.now }
    ensures { result ≡ min (digits_value_after 10 number digits.now) 1000000001 }
{
    let mut number = number;
    for byte in digits {
        number = (number * 10 + u64::from(byte.saturating_sub(b'0'))).min(ABOVE);
    }
    number
}

/// The microvolts that the last of so many decimals counts.
fn unit_of(decimals: usize) -> u64
    requires { decimals ≤ 6 }
    ensures { result ≡ 10 ^ (6 - decimals) }
{
    match decimals {
        0 => 1_000_000,
        1 => 100_000,
        2 => 10_000,
        3 => 1_000,
        4 => 100,
        5 => 10,
        _ => 1,
    }
}

/// The microvolts of a text: decimal digits, at least one, with at most one point and at most six of them behind it.
///
/// `Form` comes exactly where the text isn't of this form, `Range` exactly where it is, and is above 1000 V.
pub fn read_volts(text: &[u8]) -> Result<u32, VoltFault>
    ensures volts { IfOk result (IsVolts text.now) }
    ensures fault { IfErr result (IsVoltFault text.now) }
{
    let (whole, decimals) = parts(text);
    if whole.len() + decimals.len() == 0 {
        return Err(VoltFault::Form);
    }
    if decimals.len() > 6 {
        return Err(VoltFault::Form);
    }
    if !are_digits(whole) {
        return Err(VoltFault::Form);
    }
    if !are_digits(decimals) {
        return Err(VoltFault::Form);
    }
    let number = number_from(number_from(0, whole), decimals);
    let microvolts = number * unit_of(decimals.len());
    if microvolts > HIGHEST {
        return Err(VoltFault::Range);
    }
    Ok(microvolts as u32)
}
