//! What stands in the bodies of objects. Numbers stand for places, which are paths of scopes and instances, names of files
//! and whole names of supplies, and for objects.

use pw_defs::Term;
use upf_statements::Clause;

/// The line that made a thing: the place of its file, its number there, and the place of the scope at which its frame
/// began.
#[derive(Clone, Copy)]
pub struct Origin {
    pub file: u32,
    pub line: u32,
    pub home: u32,
}

/// An option as a line gave it. The names in its value are seen from the place of a scope.
#[derive(Drop)]
pub struct GivenClause {
    pub clause: Clause,
    pub scope: u32,
    pub origin: Origin,
}

/// An expression of a power state. The names in it are seen from the place of a scope.
#[derive(Drop)]
pub struct Expression {
    pub term: Term,
    pub scope: u32,
    pub origin: Origin,
}

/// The set that a domain has as its primary or default_isolation, by the number of the object, and the line that gave it.
#[derive(Clone, Copy)]
pub struct Handle {
    pub set: u32,
    pub line: u32,
}

/// What a supply is known by: a port, net or switch port that a script made by the place of its whole name, and of the
/// model at the place of an instance an interface supply or an `out` port by its number.
#[derive(Clone, Copy)]
pub enum SupplyKey {
    Made(u32),
    Inner(u32, u32),
    Outer(u32, u32),
}
