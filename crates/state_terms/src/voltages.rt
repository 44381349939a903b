//! The voltages of a literal, as `{FULL_ON 0.8}`, from its opening brace to the closing one.
ghost use Rattle.std.specs.Prelude.{◌≡◌, ℕ, [], ◌∷◌, MatchOption, codes};
ghost use Rattle.std.specs.Str.{bytes_eq};
ghost use Rattle.text_defs.specs.Volts.{IsVolts};
ghost use Rattle.upf_commands.specs.Voltages.{IsVoltage};
ghost use Rattle.state_terms.specs.Readings.{Reads, Lacks};
ghost use Rattle.state_terms.specs.Parts.{AreVolts, IsListed, IsLiteral};

use crate::words::{Mark, behind, word};
use pw_lex::read_volts;

/// The microvolts of a word.
fn volts(word: &[u8]) -> Option<u32>
    ensures { MatchOption result ((v : ℕ) → ¬ IsVolts word.now v) (IsVolts word.now) }
{
    match read_volts(word) {
        Ok(volts) => Some(volts),
        Err(_) => None,
    }
}

/// The microvolts of one word.
fn of_one(word: &[u8]) -> Option<u32>
    ensures { MatchOption result ((v : ℕ) → ¬ IsVoltage (word.now ∷ []) v) (IsVoltage (word.now ∷ [])) }
{
    volts(word)
}

/// The microvolts in the middle of two words, of which the second isn't below the first.
fn of_two(first: &[u8], last: &[u8]) -> Option<u32>
    ensures { MatchOption result ((v : ℕ) → ¬ IsVoltage (first.now ∷ last.now ∷ []) v) (IsVoltage (first.now ∷ last.now ∷ [])) }
{
    let low = volts(first)?;
    let high = volts(last)?;
    if low > high {
        return None;
    }
    Some((low + high) / 2)
}

/// The microvolts of the second of three words, of which the last isn't below the first.
fn of_three(first: &[u8], second: &[u8], last: &[u8]) -> Option<u32>
    ensures { MatchOption result ((v : ℕ) → ¬ IsVoltage (first.now ∷ second.now ∷ last.now ∷ []) v) (IsVoltage (first.now ∷ second.now ∷ last.now ∷ [])) }
{
    let low = volts(first)?;
    let middle = volts(second)?;
    let high = volts(last)?;
    if low > high {
        return None;
    }
    Some(middle)
}

/// The next word of a literal, with or without a comma before it.
fn listed_word(text: &[u8]) -> Option<(&[u8], &[u8])>
    ensures { MatchOption result (Lacks IsListed text.now) (λ r. Reads IsListed text.now r.0.now r.1.now) }
{
    match behind(Mark::Comma, text) {
        Some(rest) => word(rest),
        None => word(text),
    }
}

/// The voltage of a literal behind its first two words.
fn behind_two<'a>(first: &[u8], second: &[u8], text: &'a [u8]) -> Option<(u32, &'a [u8])>
    ensures { MatchOption result (Lacks (AreVolts (first.now ∷ second.now ∷ [])) text.now) (λ r. Reads (AreVolts (first.now ∷ second.now ∷ [])) text.now r.0 r.1.now) }
{
    if let Some(left) = behind(Mark::Unbrace, text) {
        return Some((of_two(first, second)?, left));
    }
    let (last, rest) = listed_word(text)?;
    let left = behind(Mark::Unbrace, rest)?;
    Some((of_three(first, second, last)?, left))
}

/// The voltage of a literal behind its first word.
fn behind_one<'a>(first: &[u8], text: &'a [u8]) -> Option<(u32, &'a [u8])>
    ensures { MatchOption result (Lacks (AreVolts (first.now ∷ [])) text.now) (λ r. Reads (AreVolts (first.now ∷ [])) text.now r.0 r.1.now) }
{
    if let Some(left) = behind(Mark::Unbrace, text) {
        return Some((of_one(first)?, left));
    }
    let (second, rest) = listed_word(text)?;
    behind_two(first, second, rest)
}

/// The voltage of the words up to the closing brace.
fn voltage(text: &[u8]) -> Option<(u32, &[u8])>
    ensures { MatchOption result (Lacks (AreVolts []) text.now) (λ r. Reads (AreVolts []) text.now r.0 r.1.now) }
{
    let (first, rest) = listed_word(text)?;
    behind_one(first, rest)
}

/// Whether a word says that a function is on.
pub(crate) fn is_full_on(word: &[u8]) -> bool
    ensures { result ≡ bytes_eq word.now (codes "FULL_ON") }
{
    word == b"FULL_ON".as_slice()
}

/// The voltage of a literal.
pub(crate) fn literal(text: &[u8]) -> Option<(u32, &[u8])>
    ensures { MatchOption result (Lacks IsLiteral text.now) (λ r. Reads IsLiteral text.now r.0 r.1.now) }
{
    let rest = behind(Mark::Brace, text)?;
    let (on, rest) = word(rest)?;
    if !is_full_on(on) {
        return None;
    }
    voltage(rest)
}
