//! Faults of texts, and the text at which a fault of a design stands.
ghost use Rattle.std.specs.Prelude.{◌≡◌, slice_get, unwrap_or};
ghost use Rattle.text_designs.specs.Texts.{text_of_fault, text_of_place, texts_of_modules};

use pw_defs::{AtModule, DesignFault, LibFault, List, NetFault};

/// A fault, and the number of the text that it is told of: among the libraries, or among the netlists.
///
/// A fault of the design is told of the netlist of its module, and of the first one at line 0.
#[derive(Drop)]
pub enum TextFault {
    Library { text: u32, fault: LibFault },
    Netlist { text: u32, fault: NetFault },
    Design { text: u32, fault: DesignFault },
}

/// The number of the netlist that has the module of this number, by how many modules each has; 0 where none has.
fn text_of_module(counts: &List<u32>, holder: u32) -> u32
    ensures { result ≡ unwrap_or (slice_get (texts_of_modules 0 counts.now) holder) 0 }
{
    let mut text = 0;
    let mut left = holder;
    for count in counts.as_slice() {
        if left < *count {
            return text;
        }
        left -= *count;
        text += 1;
    }
    0
}

/// The number of the netlist that has the line of a fault.
fn text_of_place(counts: &List<u32>, at: &AtModule) -> u32
    ensures { result ≡ text_of_place counts.now at.now }
{
    if at.line == 0 {
        return 0;
    }
    text_of_module(counts, at.module)
}

/// The number of the netlist at which a fault of a design stands.
pub(crate) fn text_of_fault(counts: &List<u32>, fault: &DesignFault) -> u32
    ensures { result ≡ text_of_fault counts.now fault.now }
{
    match fault {
        DesignFault::N5(at) => text_of_place(counts, at),
        DesignFault::N6(at) => text_of_place(counts, at),
        DesignFault::N7(at) => text_of_place(counts, at),
        DesignFault::N8(at) => text_of_place(counts, at),
        DesignFault::N9(at) => text_of_place(counts, at),
        DesignFault::N10(at) => text_of_place(counts, at),
        DesignFault::N11(at) => text_of_place(counts, at),
        DesignFault::N12(at) => text_of_place(counts, at),
        DesignFault::M5(at) => text_of_place(counts, at),
        DesignFault::X1(at) => text_of_place(counts, at),
        DesignFault::Memory => 0,
    }
}
