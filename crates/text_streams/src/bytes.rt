//! The bytes at the front of a text.
ghost use Rattle.std.specs.Prelude.{◌≡◌, ℕ, ◌≤◌, ◌&&◌, ◌==◌, IfSome, true, length, take, drop};
ghost use Rattle.text_defs.specs.Pieces.{is_white, begins_with, closed_by};

/// Whether a byte is white space.
pub fn is_white(byte: u8) -> bool
    ensures { result ≡ is_white byte }
{
    byte == b' ' || byte == b'\t' || byte == b'\n' || byte == b'\r' || byte == 12
}

/// The text behind so many bytes.
pub fn behind(text: &[u8], size: usize) -> &[u8]
    requires { size ≤ length text.now }
    ensures { result.now ≡ drop size text.now }
{
    text.split_at(size).1
}

/// So many bytes at the front of the text.
pub fn front(text: &[u8], size: usize) -> &[u8]
    requires { size ≤ length text.now }
    ensures { result.now ≡ take size text.now }
{
    text.split_at(size).0
}

/// Whether the text begins with a byte.
pub fn begins_with(byte: u8, text: &[u8]) -> bool
    ensures { result ≡ begins_with byte text.now }
{
    match text {
        [] => false,
        [first, ..] => *first == byte,
    }
}

/// Whether what is skipped is closed at a byte, by the text behind it.
fn closes(first: u8, second: u8, byte: u8, behind: &[u8]) -> bool
    ensures test { result ≡ (byte == first && begins_with second behind.now) }
    ensures some { result ≡ true → 1 ≤ length behind.now }
{
    byte == first && begins_with(second, behind)
}

/// How many bytes stand up to and with the first `first` that `second` follows.
pub fn closed_by(first: u8, second: u8, text: &[u8]) -> Option<usize>
    ensures size { result ≡ closed_by first second text.now }
    ensures within { IfSome result (λ n. n ≤ length text.now) }
{
    for (at, byte) in text.iter().enumerate() {
        if closes(first, second, *byte, behind(text, at + 1)) {
            return Some(at + 2);
        }
    }
    None
}
