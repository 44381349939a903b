//! Refusals and the line of each.
ghost use Rattle.std.specs.Prelude.{◌≡◌, IfOk};
ghost use Rattle.upf_sign.specs.RefusalText.{code_text, refusal_text};

use itoa::Buffer;
use pw_defs::{Bytes, Code, Memory, Name, Refusal};
use std::alloc::Global;

/// A refusal at no line of a file.
pub(crate) fn refusal(alloc: Global, code: Code, file: &str, name: &[u8]) -> Result<Refusal, Memory>
    ensures { IfOk result (λ refusal. refusal ≡ record { code = code; file = file.now; line = 0; name = name.now }) }
{
    Ok(Refusal {
        code,
        file: Name::from_slice(alloc, file.as_bytes())?,
        line: 0,
        name: Name::from_slice(alloc, name)?,
    })
}

/// The line of a refusal, `FILE:LINE: CODE NAME`, with its newline.
pub(crate) fn refusal_text(alloc: Global, refusal: &Refusal) -> Result<Bytes, Memory>
    ensures { IfOk result (λ text. text ≡ refusal_text refusal.now) }
{
    let mut buffer = Buffer::new();
    let mut text = Bytes::new(alloc);
    text.put(refusal.file.as_slice())?;
    text.put(b":")?;
    text.put(buffer.format(refusal.line).as_bytes())?;
    text.put(b": ")?;
    text.put(code_text(refusal.code))?;
    text.put(b" ")?;
    text.put(refusal.name.as_slice())?;
    text.put(b"\n")?;
    Ok(text)
}

fn code_text(code: Code) -> &'static [u8]
    ensures { result.now ≡ code_text code }
{
    match code {
        Code::F1 => b"F1",
        Code::F2 => b"F2",
        Code::L1 => b"L1",
        Code::L2 => b"L2",
        Code::L3 => b"L3",
        Code::N1 => b"N1",
        Code::N2 => b"N2",
        Code::N3 => b"N3",
        Code::N4 => b"N4",
        Code::N5 => b"N5",
        Code::N6 => b"N6",
        Code::N7 => b"N7",
        Code::N8 => b"N8",
        Code::N9 => b"N9",
        Code::N10 => b"N10",
        Code::N11 => b"N11",
        Code::N12 => b"N12",
        Code::M1 => b"M1",
        Code::M2 => b"M2",
        Code::M3 => b"M3",
        Code::M4 => b"M4",
        Code::M5 => b"M5",
        Code::M6 => b"M6",
        Code::T1 => b"T1",
        Code::T2 => b"T2",
        Code::T3 => b"T3",
        Code::T4 => b"T4",
        Code::U1 => b"U1",
        Code::U2 => b"U2",
        Code::U3 => b"U3",
        Code::U4 => b"U4",
        Code::U5 => b"U5",
        Code::U6 => b"U6",
        Code::U7 => b"U7",
        Code::U8 => b"U8",
        Code::U9 => b"U9",
        Code::U10 => b"U10",
        Code::U11 => b"U11",
        Code::U12 => b"U12",
        Code::U13 => b"U13",
        Code::U14 => b"U14",
        Code::U15 => b"U15",
        Code::U16 => b"U16",
        Code::U17 => b"U17",
        Code::U18 => b"U18",
        Code::X1 => b"X1",
        Code::X2 => b"X2",
        Code::X3 => b"X3",
        Code::X4 => b"X4",
        Code::X5 => b"X5",
        Code::Z1 => b"Z1",
    }
}
