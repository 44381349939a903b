//! The indices of vectors, as they stand in the names of their bits.
ghost use Rattle.std.specs.Prelude.{◌≡◌, ℕ, ◌<◌, List, [], ◌∷◌, ◌++◌, Some, decimal, option_map, IfSome};
ghost use Rattle.design_defs.specs.Ranges.{index_at, is_between, is_falling, place_at};
ghost use Rattle.design_defs.specs.Ranges.{bit_name, width};

use itoa::Buffer;
use std::str;

/// The number whose decimal form the digits are, without zeros in front.
pub fn number_of(digits: &[u8]) -> Option<u32>
    ensures digits { IfSome result (λ number. digits.now ≡ decimal number) }
    ensures each { (number : ℕ) → number < 4294967296 → digits.now ≡ decimal number → result ≡ Some number }
{
    let number = parsed(digits)?;
    let mut buffer = Buffer::new();
    if buffer.format(number).as_bytes() == digits {
        Some(number)
    } else {
        None
    }
}

/// The number that the digits give, with zeros in front too.
fn parsed(digits: &[u8]) -> Option<u32>
    ensures { (number : ℕ) → number < 4294967296 → digits.now ≡ decimal number → result ≡ Some number }
{
    match str::from_utf8(digits) {
        Ok(text) => match text.parse::<u32>() {
            Ok(number) => Some(number),
            Err(_) => None,
        },
        Err(_) => None,
    }
}

/// The place of an index of a vector, counted from the left, where the vector has it.
pub fn place_of_index(range: (u32, u32), index: u32) -> Option<u32>
    ensures { result ≡ place_at range index }
{
    let (left, right) = range;
    if right <= left {
        if right <= index && index <= left {
            return Some(left - index);
        }
        return None;
    }
    if left <= index && index <= right {
        return Some(index - left);
    }
    None
}

/// The text between the brackets behind a vector's name.
fn index_text<'a>(vector: &[u8], name: &'a [u8]) -> Option<&'a [u8]>
    ensures text { IfSome result (λ digits. name.now ≡ vector.now ++ 91 ∷ digits.now ++ 93 ∷ []) }
    ensures each { (digits : List ℕ) → name.now ≡ vector.now ++ 91 ∷ digits ++ 93 ∷ [] → option_map (λ d. d.now) result ≡ Some digits }
{
    let behind = name.strip_prefix(vector)?;
    let inside = behind.strip_prefix(b"[")?;
    let digits = inside.strip_suffix(b"]")?;
    Some(digits)
}

/// The place of the bit of a vector that has this name, where the vector has it.
pub fn place_of_bit(vector: &[u8], range: (u32, u32), name: &[u8]) -> Option<u32>
    ensures place { IfSome result (λ place. (place < width (Some range)) × (name.now ≡ bit_name vector.now (Some range) place)) }
    ensures each { (place : ℕ) → place < width (Some range) → name.now ≡ bit_name vector.now (Some range) place → result ≡ Some place }
{
    let digits = index_text(vector, name)?;
    let index = number_of(digits)?;
    place_of_index(range, index)
}
