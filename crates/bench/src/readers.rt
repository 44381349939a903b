//! Libraries, netlists and their designs, read from files, by what they hold.

use crate::Told;
use crate::faults::{library_fault, netlist_fault, text_fault};
use cell_joins::read_cells;
use design_rows::Design;
use module_rows::Modules;
use net_modules::read_modules;
use pw_defs::{Bytes, Cells, Feeder, List};
use pw_outer::{DirShelf, Shelf};
use std::alloc::{AllocError, Global};
use std::rt::Files;
use text_designs::{TextFault, design_of_texts};

/// How many cells and pins the library in a file has, or its first fault.
pub fn library_told<R: Files>(rt: &R, alloc: Global, file: &str) -> Result<Told, AllocError> {
    let Some(text) = file_text(rt, alloc, file)? else {
        return no_file(alloc);
    };
    match read_cells(alloc, text.as_slice()) {
        Ok(cells) => {
            let (count, pins) = (cells.cells.len(), pin_count(&cells));
            Ok(Told::Counts(format!(in alloc; "cells {count} pins {pins}")?))
        }
        Err(fault) => Ok(Told::Fault(library_fault(alloc, &fault)?)),
    }
}

/// How many modules, wires, instances and names the netlist in a file has, or its first fault.
pub fn modules_told<R: Files>(rt: &R, alloc: Global, file: &str) -> Result<Told, AllocError> {
    let Some(text) = file_text(rt, alloc, file)? else {
        return no_file(alloc);
    };
    match read_modules(alloc, text.as_slice()) {
        Ok(modules) => {
            let (nets, insts) = line_counts(&modules);
            let (count, names) = (modules.len(), modules.symbols());
            Ok(Told::Counts(format!(in alloc;
                "modules {count} wires {nets} instances {insts} names {names}"
            )?))
        }
        Err(fault) => Ok(Told::Fault(netlist_fault(alloc, &fault)?)),
    }
}

/// What is counted of the design that the library and the netlist in two files make below a top, or the first fault of the
/// library, of the netlist or of the design.
pub fn design_told<R: Files>(
    rt: &R,
    alloc: Global,
    library: &str,
    netlist: &str,
    top: &str,
) -> Result<Told, AllocError> {
    let Some(library) = file_text(rt, alloc, library)? else {
        return no_file(alloc);
    };
    let Some(netlist) = file_text(rt, alloc, netlist)? else {
        return no_file(alloc);
    };
    let libraries = one_text(alloc, library)?;
    let netlists = one_text(alloc, netlist)?;
    match design_without_models(alloc, &libraries, &netlists, top.as_bytes()) {
        Ok(design) => Ok(Told::Counts(design_counts(alloc, &design)?)),
        Err(fault) => Ok(Told::Fault(text_fault(alloc, &fault)?)),
    }
}

/// The design that libraries and netlists make below a top, where no model stands for a module.
#[tactic(auto, using(crate::proofs::NoModels::no_models))]
fn design_without_models(
    alloc: Global,
    libraries: &List<Bytes>,
    netlists: &List<Bytes>,
    top: &[u8],
) -> Result<Design, TextFault> {
    let models = List::new(alloc);
    design_of_texts(alloc, libraries, netlists, models, top)
}

fn no_file(alloc: Global) -> Result<Told, AllocError> {
    Ok(Told::Fault(String::from_str(alloc, "a file can't be read")?))
}

/// A list of one text.
fn one_text(alloc: Global, text: Vec<u8>) -> Result<List<Bytes>, AllocError> {
    let Some(text) = Bytes::from_vec(text) else {
        return Err(AllocError);
    };
    let mut texts = List::new(alloc);
    texts.push(text)?;
    Ok(texts)
}

/// The bytes of a file, `None` where it can't be read.
fn file_text<R: Files>(rt: &R, alloc: Global, file: &str) -> Result<Option<Vec<u8>>, AllocError> {
    let Ok(mut shelf) = DirShelf::new(rt, alloc, ".") else {
        return Err(AllocError);
    };
    let mut text = Vec::new(alloc);
    match shelf.fetch(file, &mut text) {
        Ok(()) => Ok(Some(text)),
        Err(_) => Ok(None),
    }
}

fn pin_count(cells: &Cells) -> u64 {
    let mut count = 0u64;
    for cell in cells.cells.as_slice() {
        count = count.saturating_add(u64::from(cell.pins.len()));
    }
    count
}

fn line_counts(modules: &Modules) -> (u64, u64) {
    let (mut nets, mut insts) = (0u64, 0u64);
    for holder in 0..modules.len() {
        let head = modules.module(holder);
        nets = nets.saturating_add(u64::from(head.nets));
        insts = insts.saturating_add(u64::from(head.insts));
    }
    (nets, insts)
}

/// How many modules, instances and bits a design has, how many of its bits another bit feeds, and how many a constant.
fn design_counts(alloc: Global, design: &Design) -> Result<String, AllocError> {
    let (modules, insts, bits) = (
        design.modules().len(),
        design.len_insts(),
        design.len_bits(),
    );
    let (fed, tied) = feeder_counts(design);
    format!(in alloc; "modules {modules} instances {insts} bits {bits} fed {fed} tied {tied}")
}

fn feeder_counts(design: &Design) -> (u64, u64) {
    let (mut fed, mut tied) = (0u64, 0u64);
    for n in 0..design.len_bits() {
        match design.feeder(n) {
            Feeder::Bit(_) | Feeder::Through { .. } => fed = fed.saturating_add(1),
            Feeder::Constant => tied = tied.saturating_add(1),
            Feeder::Driver(_) | Feeder::Nothing => {}
        }
    }
    (fed, tied)
}
