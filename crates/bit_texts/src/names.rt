//! The names of bits, by the name and the range of the net.
ghost use Rattle.std.specs.Prelude.{◌≡◌, ◌++◌, [], IfOk, IfSome, OnOk, Some};
ghost use Rattle.design_defs.specs.Ranges.{bit_name, index_at};

use itoa::Buffer;
use pw_defs::{Bytes, Memory};
use std::alloc::Global;

/// The index at a place of a vector, `None` where it has more than 64 bits.
fn index_at(range: (u32, u32), place: u64) -> Option<u64>
    ensures { IfSome result (λ index. index ≡ index_at range place) }
{
    let (left, right) = range;
    if right <= left {
        Some(u64::from(left).saturating_sub(place))
    } else {
        u64::from(left).checked_add(place)
    }
}

/// Appends the index of a bit of a vector in brackets, as the name of the bit has it behind that of the net.
fn put_index(range: (u32, u32), place: u64, out: &mut Bytes) -> Result<(), Memory>
    ensures { OnOk result (out.new ≡ out.old ++ bit_name [] (Some range) place) }
{
    let index = index_at(range, place).ok_or(Memory)?;
    let mut buffer = Buffer::new();
    out.put(b"[")?;
    out.put(buffer.format(index).as_bytes())?;
    out.put(b"]")?;
    Ok(())
}

/// Appends the name of a bit of a net, by the name and the range of the net and the place of the bit.
pub fn put_bit_name(
    name: &[u8],
    range: Option<(u32, u32)>,
    place: u64,
    out: &mut Bytes,
) -> Result<(), Memory>
    ensures { OnOk result (out.new ≡ out.old ++ bit_name name.now range place) }
{
    out.put(name)?;
    match range {
        Some(range) => put_index(range, place, out)?,
        None => {}
    }
    Ok(())
}

/// The name of a bit of a net as a text of its own.
pub fn bit_name(
    alloc: Global,
    name: &[u8],
    range: Option<(u32, u32)>,
    place: u64,
) -> Result<Bytes, Memory>
    ensures { IfOk result (λ text. text ≡ bit_name name.now range place) }
{
    let mut text = Bytes::new(alloc);
    put_bit_name(name, range, place, &mut text)?;
    Ok(text)
}
