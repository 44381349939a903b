//! Cells and modules as the design has them.
ghost use Rattle.std.specs.Prelude.{◌≡◌, ◌<◌, None, map, length, position, IfOk, IfSome};
ghost use Rattle.list_defs.specs.Members.{place_of};
ghost use Rattle.form_design.specs.Fits.{is_data_pin};
ghost use Rattle.form_design.specs.Designs.{is_enable, is_enable_pin, only_data, first_enable, is_isolation, is_shifter, cell_of, module_of, instance_of};

use crate::checks::{data_pins, is_data_pin};
use crate::hierarchy::Held;
use line_forms::{CellKind, CellLines, ModuleLines, PinLine, PortWords, Role};
use pw_defs::{Cell, Dir, Instance, List, Memory, Module, Pin, Port};
use std::alloc::Global;

fn is_enable(role: Role) -> bool
    ensures { result ≡ is_enable role }
{
    match role {
        Role::IsolationEnable | Role::ShifterEnable => true,
        Role::IsolationData | Role::ShifterData => false,
    }
}

fn is_enable_pin(pin: &PinLine) -> bool
    ensures { result ≡ is_enable_pin pin.now }
{
    if pin.dir != Dir::Input {
        return false;
    }
    match pin.role {
        Some(role) => is_enable(role),
        None => false,
    }
}

/// The place of the first data pin, in the words of std.
fn data_place(pins: &[PinLine]) -> Option<usize>
    ensures place { result ≡ position is_data_pin pins.now }
    ensures within { IfSome result (λ place. place < length pins.now) }
{
    pins.iter().position(|pin| is_data_pin(pin))
}

/// The place of the first data pin.
#[tactic(auto, using(crate::proofs::Places::places))]
fn first_data(pins: &List<PinLine>) -> Option<u32>
    ensures { result ≡ place_of is_data_pin pins.now }
{
    match data_place(pins.as_slice()) {
        Some(place) => Some(place as u32),
        None => None,
    }
}

/// The place of the one data pin.
fn only_data(pins: &List<PinLine>) -> Option<u32>
    ensures { result ≡ only_data pins.now }
{
    if data_pins(pins.as_slice()) != 1 {
        return None;
    }
    first_data(pins)
}

/// The place of the first input that is an enable pin, in the words of std.
fn enable_place(pins: &[PinLine]) -> Option<usize>
    ensures place { result ≡ position is_enable_pin pins.now }
    ensures within { IfSome result (λ place. place < length pins.now) }
{
    pins.iter().position(|pin| is_enable_pin(pin))
}

/// The place of the first input that is an enable pin.
#[tactic(auto, using(crate::proofs::Places::places))]
fn first_enable(pins: &List<PinLine>) -> Option<u32>
    ensures { result ≡ first_enable pins.now }
{
    match enable_place(pins.as_slice()) {
        Some(place) => Some(place as u32),
        None => None,
    }
}

fn pins_of(alloc: Global, lines: &[PinLine]) -> Result<List<Pin>, Memory>
    ensures { IfOk result (λ pins. pins ≡ map (λ p. record { name = p.name; dir = p.dir }) lines.now) }
{
    let mut pins = List::new(alloc);
    for pin in lines {
        pins.push(Pin {
            name: pin.name.clone()?,
            dir: pin.dir,
        })?;
    }
    Ok(pins)
}

fn is_isolation(kind: CellKind) -> bool
    ensures { result ≡ is_isolation kind }
{
    match kind {
        CellKind::Isolation => true,
        CellKind::Plain | CellKind::Shifter => false,
    }
}

fn is_shifter(kind: CellKind) -> bool
    ensures { result ≡ is_shifter kind }
{
    match kind {
        CellKind::Shifter => true,
        CellKind::Plain | CellKind::Isolation => false,
    }
}

fn cell_of(alloc: Global, lines: &CellLines) -> Result<Cell, Memory>
    ensures { IfOk result (λ cell. cell ≡ cell_of lines.now) }
{
    let enable = first_enable(&lines.pins);
    let shift = is_shifter(lines.kind);
    let iso = is_isolation(lines.kind) || (shift && enable.is_some());
    Ok(Cell {
        name: lines.name.clone()?,
        pins: pins_of(alloc, lines.pins.as_slice())?,
        iso,
        shift,
        through: only_data(&lines.pins),
        enable,
    })
}

/// The cells of a library.
pub(crate) fn cells_of(alloc: Global, lines: &[CellLines]) -> Result<List<Cell>, Memory>
    ensures { IfOk result (λ cells. cells ≡ map cell_of lines.now) }
{
    let mut cells = List::new(alloc);
    for cell in lines {
        cells.push(cell_of(alloc, cell)?)?;
    }
    Ok(cells)
}

fn ports_of(alloc: Global, words: &[PortWords]) -> Result<List<Port>, Memory>
    ensures { IfOk result (λ ports. ports ≡ map (λ p. record { name = p.name; dir = p.dir; range = None }) words.now) }
{
    let mut ports = List::new(alloc);
    for port in words {
        ports.push(Port {
            name: port.name.clone()?,
            dir: port.dir,
            range: None,
        })?;
    }
    Ok(ports)
}

fn module_of(alloc: Global, lines: &ModuleLines) -> Result<Module, Memory>
    ensures { IfOk result (λ m. m ≡ module_of lines.now) }
{
    Ok(Module {
        name: lines.name.clone()?,
        ports: ports_of(alloc, lines.ports.as_slice())?,
        nets: List::new(alloc),
        assigns: List::new(alloc),
        insts: List::new(alloc),
        line: 0,
    })
}

/// The modules of a netlist.
pub(crate) fn modules_of(alloc: Global, lines: &[ModuleLines]) -> Result<List<Module>, Memory>
    ensures { IfOk result (λ modules. modules ≡ map module_of lines.now) }
{
    let mut modules = List::new(alloc);
    for part in lines {
        modules.push(module_of(alloc, part)?)?;
    }
    Ok(modules)
}

/// The instances of a design.
pub(crate) fn instances_of(alloc: Global, helds: &[Held]) -> Result<List<Instance>, Memory>
    ensures { IfOk result (λ insts. insts ≡ map instance_of helds.now) }
{
    let mut insts = List::new(alloc);
    for held in helds {
        insts.push(Instance {
            path: held.path.clone()?,
            parent: held.parent,
            body: held.body,
        })?;
    }
    Ok(insts)
}
