//! The names of the bits of a model's ports, in order of the ports and from the left.
ghost use Rattle.std.specs.Prelude.{◌≡◌, ℕ, ◌++◌, ◌∷◌, [], List, IfOk, OnOk};
ghost use Rattle.design_defs.specs.Models.{bits_of_port, input_bits, output_bits};
ghost use Rattle.design_defs.specs.Ranges.{width};
ghost use Rattle.list_defs.specs.Members.{IsIn};

use bit_texts::bit_name;
use name_index::NameIndex;
use pw_defs::{Bytes, Dir, List, Memory, Port};
use std::alloc::Global;

/// The names of input bits, and those of output bits.
#[derive(Drop)]
pub struct BitNames {
    pub inputs: List<Bytes>,
    pub outputs: List<Bytes>,
}

/// How many bits a port has.
fn width(range: Option<(u32, u32)>) -> u64
    ensures { result ≡ width range }
{
    match range {
        Some((left, right)) => u64::from(left.abs_diff(right)) + 1,
        None => 1,
    }
}

/// Adds the names of the bits of a port.
fn add_bits(alloc: Global, port: &Port, names: &mut List<Bytes>) -> Result<(), Memory>
    ensures { OnOk result (names.new ≡ names.old ++ bits_of_port port.now) }
{
    for place in 0..width(port.range) {
        let name = bit_name(alloc, port.name.as_slice(), port.range, place)?;
        names.push(name)?;
    }
    Ok(())
}

/// Adds the names of the bits of a port to those of its direction.
fn add_port(alloc: Global, port: &Port, names: &mut BitNames) -> Result<(), Memory>
    ensures inputs { OnOk result (names.new.inputs ≡ names.old.inputs ++ input_bits (port.now ∷ [])) }
    ensures outputs { OnOk result (names.new.outputs ≡ names.old.outputs ++ output_bits (port.now ∷ [])) }
{
    match port.dir {
        Dir::Input => add_bits(alloc, port, &mut names.inputs)?,
        Dir::Output => add_bits(alloc, port, &mut names.outputs)?,
    }
    Ok(())
}

/// The names of the bits of ports.
pub fn bits_of(alloc: Global, ports: &[Port]) -> Result<BitNames, Memory>
    ensures inputs { IfOk result (λ names. names.inputs ≡ input_bits ports.now) }
    ensures outputs { IfOk result (λ names. names.outputs ≡ output_bits ports.now) }
{
    let mut names = BitNames {
        inputs: List::new(alloc),
        outputs: List::new(alloc),
    };
    for port in ports {
        add_port(alloc, port, &mut names)?;
    }
    Ok(names)
}

/// An index in which these names are, and no others.
pub fn index_of(alloc: Global, names: &[Bytes]) -> Result<NameIndex, Memory>
    ensures { IfOk result (λ index. (name : List ℕ) → IsIn name index → IsIn name names.now) }
{
    let mut index = NameIndex::new(alloc);
    for name in names {
        let _new = index.add(name.as_slice())?;
    }
    Ok(index)
}
