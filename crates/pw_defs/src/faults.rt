//! What each step can answer in place of its result. A fault has the line and the name that its refusal shows.

use plain_lists::Name;

/// Why a text is no voltage: it has not the form, or it is above 1000 V.
#[derive(Clone, Copy, Debug, PartialEq, Eq)]
pub enum VoltFault {
    Form,
    Range,
}

/// A line, and the name that the refusal gives; `-` where it gives none.
#[derive(Drop)]
pub struct At {
    pub line: u32,
    pub name: Name,
}

/// A line in the text of a module, and the name that the refusal gives. At line 0 `module` is 0 and isn't used.
#[derive(Drop)]
pub struct AtModule {
    pub module: u32,
    pub line: u32,
    pub name: Name,
}

/// Faults of a library.
#[derive(Drop)]
pub enum LibFault {
    L1(At),
    L2(At),
    L3(At),
    Memory,
}

/// Faults of a netlist's text.
#[derive(Drop)]
pub enum NetFault {
    N1(At),
    N2(At),
    N3(At),
    N4(At),
    Memory,
}

/// Faults of an elaborated design.
#[derive(Drop)]
pub enum DesignFault {
    N5(AtModule),
    N6(AtModule),
    N7(AtModule),
    N8(AtModule),
    N9(AtModule),
    N10(AtModule),
    N11(AtModule),
    N12(AtModule),
    M5(AtModule),
    X1(AtModule),
    Memory,
}

/// Faults of a script's words.
#[derive(Drop)]
pub enum TclFault {
    T1(At),
    T2(At),
    T3(At),
    T4(At),
    Memory,
}

/// Faults of a command's form.
#[derive(Drop)]
pub enum CmdFault {
    U1(At),
    U2(At),
    U3(At),
    U4(At),
    T1(At),
    T2(At),
    Memory,
}

/// Faults of the supply network. The caller knows the line.
#[derive(Drop)]
pub enum SupplyFault {
    U5(Name),
    U6(Name),
    U7(Name),
    Memory,
}

/// Faults of an expression. The caller knows the line.
#[derive(Drop)]
pub enum TermFault {
    U8,
    U9(Name),
    Memory,
}

/// Faults of the domains' elements.
#[derive(Drop)]
pub enum DomainFault {
    U10(Name),
    U11(At),
    Memory,
}

/// An update that says otherwise than before.
#[derive(Drop)]
pub enum MergeFault {
    Contradiction {
        first_line: u32,
        line: u32,
        option: Name,
    },
    Memory,
}

/// Why a script isn't loaded.
#[derive(Drop)]
pub enum LoadFault {
    Refused(Refusal),
    Outside,
    Memory,
}

/// Why the legal states aren't listed: there may be more than the bound.
#[derive(Clone, Copy, Debug, PartialEq, Eq)]
pub enum ListFault {
    Bound,
    Memory,
}

/// Faults of a model's text.
#[derive(Drop)]
pub enum ModelFault {
    M1(At),
    M2(At),
    M3(At),
    M4(At),
    Memory,
}

/// Why a check has no answer.
#[derive(Clone, Copy, Debug, PartialEq, Eq)]
pub enum CheckFault {
    NoLegal,
    Bound,
    Memory,
}

/// The code of a refusal. `Z1` stands for input whose form isn't read yet.
#[derive(Clone, Copy, Debug, PartialEq, Eq)]
pub enum Code {
    F1,
    F2,
    L1,
    L2,
    L3,
    N1,
    N2,
    N3,
    N4,
    N5,
    N6,
    N7,
    N8,
    N9,
    N10,
    N11,
    N12,
    M1,
    M2,
    M3,
    M4,
    M5,
    M6,
    T1,
    T2,
    T3,
    T4,
    U1,
    U2,
    U3,
    U4,
    U5,
    U6,
    U7,
    U8,
    U9,
    U10,
    U11,
    U12,
    U13,
    U14,
    U15,
    U16,
    U17,
    U18,
    X1,
    X2,
    X3,
    X4,
    X5,
    Z1,
}

/// A refusal's line: `file:line: CODE name`.
#[derive(Drop)]
pub struct Refusal {
    pub code: Code,
    pub file: Name,
    pub line: u32,
    pub name: Name,
}
