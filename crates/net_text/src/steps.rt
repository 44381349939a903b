//! Places behind white space, and behind bytes of which none is white space, on the way from token to token.
ghost use Rattle.std.specs.Prelude.{◌≡◌, cond, ◌+◌, ◌<◌, ◌≤◌, ◌==◌, ◌&&◌, ◌||◌, true, min, length, take, drop, slice_index_or};
ghost use Rattle.std.specs.List.{list_all};
ghost use Rattle.text_defs.specs.Pieces.{is_blank};
ghost use Rattle.text_streams.specs.Places.{IsAt, fresh_after};
ghost use Rattle.net_text.specs.NetlistTokens.{is_graphic};
ghost use Rattle.net_text.specs.Streams.{tokens_behind};

use text_streams::{Place, is_white};

/// The line behind a byte on a line.
fn line_behind(line: u32, byte: u8) -> u32
    ensures { result ≡ min (line + cond (byte == 10) 1 0) 4294967295 }
{
    if byte == b'\n' {
        return line.saturating_add(1);
    }
    line
}

/// Whether only blanks stand before what follows a byte, on its line.
fn fresh_behind(fresh: bool, byte: u8) -> bool
    ensures { result ≡ (byte == 10 || (fresh && is_blank byte)) }
{
    byte == b'\n' || (fresh && (byte == b' ' || byte == b'\t'))
}

/// The place behind the byte that stands at a place.
fn behind_byte<'a>(place: Place<'a>, byte: u8) -> Place<'a>
    requires at { IsAt place }
    requires some { place.at < length place.text.now }
    requires byte { byte ≡ slice_index_or place.text.now place.at 0 }
    ensures at { IsAt result }
    ensures text { result.text.now ≡ place.entry.text.now }
    ensures place { result.at ≡ place.entry.at + 1 }
    ensures fresh { result.fresh ≡ (byte == 10 || (place.entry.fresh && is_blank byte)) }
{
    Place {
        text: place.text,
        at: place.at + 1,
        line: line_behind(place.line, byte),
        fresh: fresh_behind(place.fresh, byte),
    }
}

/// The place behind all white space that stands at a place.
pub fn behind_white<'a>(place: Place<'a>) -> Place<'a>
    requires { IsAt place }
    ensures at { IsAt result }
    ensures text { result.text.now ≡ place.entry.text.now }
    ensures place { place.entry.at ≤ result.at }
    ensures tokens { tokens_behind result ≡ tokens_behind place.entry }
{
    let mut place = place;
    while place.at < place.text.len() {
        let byte = place.text[place.at];
        if !is_white(byte) {
            return place;
        }
        place = behind_byte(place, byte);
    }
    place
}

/// The place so many bytes on, where none of these is white space.
pub fn behind_graphic<'a>(place: Place<'a>, size: usize) -> Place<'a>
    requires at { IsAt place }
    requires size { place.at + size ≤ length place.text.now }
    requires some { 1 ≤ size }
    requires graphic { list_all is_graphic (take size (drop place.at place.text.now)) ≡ true }
    ensures at { IsAt result }
    ensures text { result.text.now ≡ place.entry.text.now }
    ensures place { result.at ≡ place.entry.at + size }
    ensures fresh { result.fresh ≡ fresh_after place.entry.fresh (take size (drop place.entry.at place.entry.text.now)) }
{
    Place {
        text: place.text,
        at: place.at + size,
        line: place.line,
        fresh: false,
    }
}
