//! Runs of bytes of one kind at the front of a text, and the numbers that digits write.
ghost use Rattle.std.specs.Prelude.{◌≡◌, ◌≤◌, min, length};
ghost use Rattle.std.specs.List.{take_while};
ghost use Rattle.std.specs.Char.{is_ascii_digit, digit_value};
ghost use Rattle.net_text.specs.NetlistTokens.{begins_name, is_name_byte, is_graphic, is_base, is_value_byte, number_of};
ghost use Rattle.net_text.specs.Runs.{is_no_newline};

use text_streams::front;

/// No number that a netlist may have is greater.
const TOO_GREAT: u32 = 100_000;

pub fn begins_name(byte: u8) -> bool
    ensures { result ≡ begins_name byte }
{
    byte.is_ascii_alphabetic() || byte == b'_'
}

fn is_name_byte(byte: u8) -> bool
    ensures { result ≡ is_name_byte byte }
{
    begins_name(byte) || byte.is_ascii_digit() || byte == b'$'
}

fn is_graphic(byte: u8) -> bool
    ensures { result ≡ is_graphic byte }
{
    33 <= byte && byte <= 126
}

pub fn is_base(byte: u8) -> bool
    ensures { result ≡ is_base byte }
{
    byte == b'b'
        || byte == b'o'
        || byte == b'd'
        || byte == b'h'
        || byte == b'B'
        || byte == b'O'
        || byte == b'D'
        || byte == b'H'
}

pub fn is_value_byte(byte: u8) -> bool
    ensures { result ≡ is_value_byte byte }
{
    byte.is_ascii_digit()
        || (97 <= byte && byte <= 102)
        || (65 <= byte && byte <= 70)
        || byte == b'x'
        || byte == b'X'
        || byte == b'z'
        || byte == b'Z'
        || byte == b'?'
        || byte == b'_'
}

/// How many bytes of a name the text begins with.
pub fn name_size(text: &[u8]) -> usize
    ensures size { result ≡ length (take_while is_name_byte text.now) }
    ensures within { result ≤ length text.now }
{
    text.iter().take_while(|byte| is_name_byte(**byte)).count()
}

/// How many graphic bytes the text begins with.
pub fn graphic_size(text: &[u8]) -> usize
    ensures size { result ≡ length (take_while is_graphic text.now) }
    ensures within { result ≤ length text.now }
{
    text.iter().take_while(|byte| is_graphic(**byte)).count()
}

/// How many digits the text begins with.
pub fn digits_size(text: &[u8]) -> usize
    ensures size { result ≡ length (take_while is_ascii_digit text.now) }
    ensures within { result ≤ length text.now }
{
    text.iter().take_while(|byte| byte.is_ascii_digit()).count()
}

/// The digits with which the text begins.
pub fn digits_at(text: &[u8]) -> &[u8]
    ensures { result.now ≡ take_while is_ascii_digit text.now }
{
    front(text, digits_size(text))
}

/// How many bytes of a constant's value the text begins with.
pub fn value_size(text: &[u8]) -> usize
    ensures size { result ≡ length (take_while is_value_byte text.now) }
    ensures within { result ≤ length text.now }
{
    text.iter().take_while(|byte| is_value_byte(**byte)).count()
}

/// How many bytes stand before the end of the text's first line.
pub fn line_size(text: &[u8]) -> usize
    ensures size { result ≡ length (take_while is_no_newline text.now) }
    ensures within { result ≤ length text.now }
{
    text.iter().take_while(|byte| **byte != b'\n').count()
}

/// What a byte counts as a digit of a number; 36 where it is none of any base.
fn digit_value(byte: u8) -> u32
    ensures value { result ≡ digit_value byte }
    ensures limit { result ≤ 36 }
{
    match byte {
        b'0'..=b'9' => u32::from(byte) - 48,
        b'A'..=b'Z' => u32::from(byte) - 55,
        b'a'..=b'z' => u32::from(byte) - 87,
        _ => 36,
    }
}

/// The number that digits write, or a hundred thousand where it is greater.
pub fn number_of(digits: &[u8]) -> u32
    ensures { result ≡ min (number_of digits.now) 100000 }
{
    let mut number = 0;
    for digit in digits {
        number = (number * 10 + digit_value(*digit)).min(TOO_GREAT);
    }
    number
}
