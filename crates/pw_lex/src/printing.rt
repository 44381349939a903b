//! Voltages as they are printed: volts with six decimals.
ghost use Rattle.std.specs.Prelude.{◌≡◌, ◌+◌, ◌/◌, ◌%◌, ◌<◌, ◌++◌, ◌∷◌, [], OnOk, OnErr, decimal, drop};
ghost use Rattle.text_defs.specs.Text.{volts};

use pw_defs::{Bytes, Memory};

/// The last digit of a number.
fn digit(number: u32) -> u8
    ensures { result ≡ 48 + number % 10 }
{
    b'0' + (number % 10) as u8
}

/// How many of four digits a number doesn't need.
fn unneeded(number: u32) -> usize
    requires { number < 10000 }
    ensures needed { decimal number ≡ drop result ((48 + number / 1000 % 10) ∷ (48 + number / 100 % 10) ∷ (48 + number / 10 % 10) ∷ (48 + number % 10) ∷ []) }
    ensures few { result < 4 }
{
    if number < 10 {
        return 3;
    }
    if number < 100 {
        return 2;
    }
    if number < 1_000 {
        return 1;
    }
    0
}

/// Appends microvolts as volts with six decimals. Want of memory leaves `out` as it was.
pub fn volts_text(v: u32, out: &mut Bytes) -> Result<(), Memory>
    ensures text { OnOk result (out.new ≡ out.old ++ volts v) }
    ensures stays { OnErr result (out.new ≡ out.old) }
{
    let whole = v / 1_000_000;
    let decimals = v % 1_000_000;
    let text = [
        digit(whole / 1_000),
        digit(whole / 100),
        digit(whole / 10),
        digit(whole),
        b'.',
        digit(decimals / 100_000),
        digit(decimals / 10_000),
        digit(decimals / 1_000),
        digit(decimals / 100),
        digit(decimals / 10),
        digit(decimals),
    ];
    out.put(&text[unneeded(whole)..])?;
    Ok(())
}
