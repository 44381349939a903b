//! Faults of libraries, netlists and designs as text: the code, the line and the name.

use pw_defs::{DesignFault, LibFault, Name, NetFault};
use std::alloc::{AllocError, Global};
use std::str;
use text_designs::TextFault;

/// The fault of a library, of a netlist or of the design of both.
pub fn text_fault(alloc: Global, fault: &TextFault) -> Result<String, AllocError> {
    match fault {
        TextFault::Library { fault, .. } => library_fault(alloc, fault),
        TextFault::Netlist { fault, .. } => netlist_fault(alloc, fault),
        TextFault::Design { fault, .. } => design_fault(alloc, fault),
    }
}

/// The fault of a library, or that memory doesn't suffice.
pub fn library_fault(alloc: Global, fault: &LibFault) -> Result<String, AllocError> {
    let (code, at) = match fault {
        LibFault::L1(at) => ("L1", at),
        LibFault::L2(at) => ("L2", at),
        LibFault::L3(at) => ("L3", at),
        LibFault::Memory => return String::from_str(alloc, "memory"),
    };
    fault_text(alloc, code, at.line, &at.name)
}

/// The fault of a netlist's text, or that memory doesn't suffice.
pub fn netlist_fault(alloc: Global, fault: &NetFault) -> Result<String, AllocError> {
    let (code, at) = match fault {
        NetFault::N1(at) => ("N1", at),
        NetFault::N2(at) => ("N2", at),
        NetFault::N3(at) => ("N3", at),
        NetFault::N4(at) => ("N4", at),
        NetFault::Memory => return String::from_str(alloc, "memory"),
    };
    fault_text(alloc, code, at.line, &at.name)
}

/// The fault of a design, or that memory doesn't suffice.
fn design_fault(alloc: Global, fault: &DesignFault) -> Result<String, AllocError> {
    let (code, at) = match fault {
        DesignFault::N5(at) => ("N5", at),
        DesignFault::N6(at) => ("N6", at),
        DesignFault::N7(at) => ("N7", at),
        DesignFault::N8(at) => ("N8", at),
        DesignFault::N9(at) => ("N9", at),
        DesignFault::N10(at) => ("N10", at),
        DesignFault::N11(at) => ("N11", at),
        DesignFault::N12(at) => ("N12", at),
        DesignFault::M5(at) => ("M5", at),
        DesignFault::X1(at) => ("X1", at),
        DesignFault::Memory => return String::from_str(alloc, "memory"),
    };
    fault_text(alloc, code, at.line, &at.name)
}

/// A code, a line and a name, where the name is text.
fn fault_text(alloc: Global, code: &str, line: u32, name: &Name) -> Result<String, AllocError> {
    match str::from_utf8(name.as_slice()) {
        Ok(name) => format!(in alloc; "{code} {line} {name}"),
        Err(_) => format!(in alloc; "{code} {line} (not text)"),
    }
}
