//! The names of the ports of one instance, met one after the other.
ghost use Rattle.std.specs.Prelude.{◌≡◌, ◌<◌, IfOk, length, map};
ghost use Rattle.design_defs.specs.Ports.{port_of_pin};
ghost use Rattle.design_defs.specs.Ranges.{width};
ghost use Rattle.module_rows.specs.Reads.{module_at};
ghost use Rattle.net_names.specs.Meets.{HasMetCell, HasMetModel, bits_at, met_all, port_at, ports_at};

use crate::meeting::{Meeting, Place, meet};
use crate::spelling::joined;
use bit_texts::bit_name;
use module_rows::Modules;
use net_places::width;
use pw_defs::{Cells, List, Memory, Model, Pin, Port};
use std::alloc::Global;

/// Meets the bits of a vector port.
fn meet_bits(
    alloc: Global,
    meeting: &mut Meeting,
    place: Place,
    name: &[u8],
    range: (u32, u32),
) -> Result<(), Memory>
    ensures { IfOk result (λ _. meeting.new ≡ met_all meeting.old (bits_at place name.now range (width (Some range)))) }
{
    for at in 0..width(Some(range)) {
        let text = bit_name(alloc, name, Some(range), at)?;
        meet(alloc, meeting, place, text.as_slice())?;
    }
    Ok(())
}

/// Meets a port below a path, and its bits.
fn meet_port(
    alloc: Global,
    meeting: &mut Meeting,
    place: Place,
    path: &[u8],
    name: &[u8],
    range: Option<(u32, u32)>,
) -> Result<(), Memory>
    ensures { IfOk result (λ _. meeting.new ≡ met_all meeting.old (port_at place path.now name.now range)) }
{
    let text = joined(alloc, path, name)?;
    meet(alloc, meeting, place, text.as_slice())?;
    match range {
        Some(range) => {
            meet_bits(alloc, meeting, place, text.as_slice(), range)?;
            Ok(())
        }
        None => Ok(()),
    }
}

/// Meets the ports of a module.
pub(crate) fn meet_module(
    alloc: Global,
    meeting: &mut Meeting,
    place: Place,
    path: &[u8],
    modules: &Modules,
    holder: u32,
) -> Result<(), Memory>
    requires { holder < length modules.now.modules }
    ensures { IfOk result (λ _. meeting.new ≡ met_all meeting.old (ports_at place path.now (module_at modules.now holder).ports)) }
{
    for number in 0..modules.module(holder).ports {
        let port = modules.port(holder, number);
        let name = modules.spelling(port.name);
        meet_port(alloc, meeting, place, path, name, port.range)?;
    }
    Ok(())
}

/// Meets ports.
fn meet_ports(
    alloc: Global,
    meeting: &mut Meeting,
    place: Place,
    path: &[u8],
    ports: &[Port],
) -> Result<(), Memory>
    ensures { IfOk result (λ _. meeting.new ≡ met_all meeting.old (ports_at place path.now ports.now)) }
{
    for port in ports {
        meet_port(
            alloc,
            meeting,
            place,
            path,
            port.name.as_slice(),
            port.range,
        )?;
    }
    Ok(())
}

/// Meets pins.
fn meet_pins(
    alloc: Global,
    meeting: &mut Meeting,
    place: Place,
    path: &[u8],
    pins: &[Pin],
) -> Result<(), Memory>
    ensures { IfOk result (λ _. meeting.new ≡ met_all meeting.old (ports_at place path.now (map port_of_pin pins.now))) }
{
    for pin in pins {
        meet_port(alloc, meeting, place, path, pin.name.as_slice(), None)?;
    }
    Ok(())
}

/// Meets the ports of a model, by its number.
pub(crate) fn meet_model(
    alloc: Global,
    meeting: &mut Meeting,
    place: Place,
    path: &[u8],
    models: &List<Model>,
    number: u32,
) -> Result<(), Memory>
    ensures { IfOk result (λ _. HasMetModel models.now place path.now number meeting.old meeting.new) }
{
    match models.get(number) {
        Some(model) => {
            meet_ports(alloc, meeting, place, path, model.ports.as_slice())?;
            Ok(())
        }
        None => Err(Memory),
    }
}

/// Meets the pins of a cell, by its number.
pub(crate) fn meet_cell(
    alloc: Global,
    meeting: &mut Meeting,
    place: Place,
    path: &[u8],
    cells: &Cells,
    number: u32,
) -> Result<(), Memory>
    ensures { IfOk result (λ _. HasMetCell cells.now place path.now number meeting.old meeting.new) }
{
    match cells.cells.get(number) {
        Some(cell) => {
            meet_pins(alloc, meeting, place, path, cell.pins.as_slice())?;
            Ok(())
        }
        None => Err(Memory),
    }
}
