//! Libraries, each joined to those before it, as text.

use crate::texts::{put_name, refused, texts_of};
use crate::words::{answer_text, unknown};
use cell_joins::{join_cells, read_cells};
use pw_defs::{Cell, Cells, Dir, LibFault, List, Pin};
use std::alloc::{AllocError, Global};

/// The cells of libraries, or the first fault, with the number of its library where there are several.
pub fn library_text(alloc: Global, words: &[&str]) -> Result<String, AllocError> {
    let Some(texts) = texts_of(alloc, words)? else {
        return unknown(alloc);
    };
    let mut all = Cells {
        cells: List::new(alloc),
    };
    for (number, text) in texts.iter().enumerate() {
        match with_library(alloc, &all, text.as_slice()) {
            Ok(cells) => all = cells,
            Err(fault) => return fault_text(alloc, &fault, number_among(number, texts.len())),
        }
    }
    cells_text(alloc, &all)
}

/// The number of a text where there are several.
fn number_among(number: usize, count: usize) -> Option<u32> {
    match u32::try_from(number) {
        Ok(number) if count > 1 => Some(number),
        _ => None,
    }
}

/// The cells so far with those of one more library.
fn with_library(alloc: Global, all: &Cells, text: &[u8]) -> Result<Cells, LibFault> {
    let more = read_cells(alloc, text)?;
    join_cells(alloc, all, &more)
}

/// A fault of a library by its code: the line, the name, and the number of the library where there is one.
pub fn fault_text(
    alloc: Global,
    fault: &LibFault,
    number: Option<u32>,
) -> Result<String, AllocError> {
    match fault {
        LibFault::L1(at) => refused(alloc, "L1", at, number),
        LibFault::L2(at) => refused(alloc, "L2", at, number),
        LibFault::L3(at) => refused(alloc, "L3", at, number),
        LibFault::Memory => answer_text(alloc, true, "memory"),
    }
}

/// How many cells there are, and each of them.
fn cells_text(alloc: Global, cells: &Cells) -> Result<String, AllocError> {
    let count = cells.cells.len();
    let mut text = format!(in alloc; "ok {count}")?;
    for cell in cells.cells.as_slice() {
        text.push_str(" ")?;
        put_cell(alloc, &mut text, cell)?;
    }
    Ok(text)
}

/// Appends a cell: its name, its pins, its kinds and its roles.
fn put_cell(alloc: Global, out: &mut String, cell: &Cell) -> Result<(), AllocError> {
    put_name(alloc, out, cell.name.as_slice())?;
    out.push_str("(")?;
    for (place, pin) in cell.pins.as_slice().iter().enumerate() {
        if place > 0 {
            out.push_str(",")?;
        }
        put_pin(alloc, out, pin)?;
    }
    out.push_str(")")?;
    if cell.iso {
        out.push_str("+iso")?;
    }
    if cell.shift {
        out.push_str("+shift")?;
    }
    if cell.through.is_some() || cell.enable.is_some() {
        put_role(alloc, out, cell, cell.through)?;
        put_role(alloc, out, cell, cell.enable)?;
    }
    Ok(())
}

/// Appends a pin: `<` stands behind an input and `>` behind an output.
fn put_pin(alloc: Global, out: &mut String, pin: &Pin) -> Result<(), AllocError> {
    put_name(alloc, out, pin.name.as_slice())?;
    out.push_str(arrow(pin.dir))
}

/// What stands behind the name of an input or output.
pub fn arrow(dir: Dir) -> &'static str {
    match dir {
        Dir::Input => "<",
        Dir::Output => ">",
    }
}

/// Appends the pin of a role, `-` where the cell has none.
fn put_role(
    alloc: Global,
    out: &mut String,
    cell: &Cell,
    pin: Option<u32>,
) -> Result<(), AllocError> {
    out.push_str("/")?;
    match pin {
        Some(number) => match cell.pins.get(number) {
            Some(pin) => put_name(alloc, out, pin.name.as_slice()),
            None => out.push_str("?"),
        },
        None => out.push_str("-"),
    }
}
