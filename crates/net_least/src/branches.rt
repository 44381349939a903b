//! The instance through which the walk to the first recursion goes on.
ghost use Rattle.std.specs.Prelude.{◌≡◌, ◌<◌, ◌↔◌, ◌++◌, ◌∷◌, [], ℕ, Bool, List, IfOk, IsTrue, Some, length, map, slice_get};
ghost use Rattle.pw_defs.specs.declared.design.Body.TheVariants.{Module as ModuleBody};
ghost use Rattle.pw_defs.specs.declared.netlist.Inst.{Inst as PlainInst};
ghost use Rattle.design_defs.specs.Hierarchy.{Sources, type_of};
ghost use Rattle.module_rows.specs.Reads.{inst_at, module_at};
ghost use Rattle.net_hierarchy.specs.Graph.{types_of};
ghost use Rattle.net_least.specs.Recursion.{Closes, ClosesAt, GoesOn, IsBranchAt, IsLeastBranch, IsMarked, IsNext, RowCloses, key, module_in};

use crate::marks::is_marked;
use module_rows::Modules;
use pw_defs::{Body, List, Memory};
use std::alloc::Global;
use std::cmp::Ordering;

/// An instance of a module that isn't free: the number of that module, the name of the instance, and its key.
#[derive(Drop)]
pub(crate) struct Branch {
    pub(crate) number: u32,
    name: Vec<u8>,
    key: Vec<u8>,
}

/// Whether an instance is of a marked module, or of this one.
fn closes_at(marks: &[bool], number: u32, item: Option<Body>) -> bool
    ensures { IsTrue result ↔ ClosesAt marks.now number item }
{
    match item {
        Some(body) => match body {
            Body::Module(other) => other == number || is_marked(marks, other),
            Body::Cell(_) | Body::Model(_) => false,
        },
        None => false,
    }
}

/// Whether one of a row is so.
fn row_closes(row: &[Option<Body>], marks: &[bool], number: u32) -> bool
    ensures { IsTrue result ↔ RowCloses row.now marks.now number }
{
    for item in row {
        if closes_at(marks, number, *item) {
            return true;
        }
    }
    false
}

/// Whether a module holds one of those that are marked, or itself.
pub(crate) fn closes(types: &List<List<Option<Body>>>, marks: &[bool], number: u32) -> bool
    ensures { IsTrue result ↔ Closes types.now marks.now number }
{
    match types.get(number) {
        Some(row) => row_closes(row.as_slice(), marks, number),
        None => false,
    }
}

/// The module that an instance of a row is of.
pub(crate) fn module_in(row: &[Option<Body>], inst: u32) -> Option<u32>
    ensures { result ≡ module_in row.now inst }
{
    match row.get(inst as usize) {
        Some(item) => match *item {
            Some(body) => match body {
                Body::Module(number) => Some(number),
                Body::Cell(_) | Body::Model(_) => None,
            },
            None => None,
        },
        None => None,
    }
}

/// The key of a name: with a slash behind it, unless the way ends there.
fn key_of(alloc: Global, name: &[u8], ends: bool) -> Result<Vec<u8>, Memory>
    ensures { IfOk result (λ text. text.items ≡ key name.now ends) }
{
    let mut text = Vec::new(alloc);
    text.extend_from_slice(name)?;
    if !ends {
        text.push(b'/')?;
    }
    Ok(text)
}

/// A branch by its name.
fn branch_of(alloc: Global, name: &[u8], number: u32, ends: bool) -> Result<Branch, Memory>
    ensures number { IfOk result (λ b. b.number ≡ number) }
    ensures name { IfOk result (λ b. b.name.items ≡ name.now) }
    ensures key { IfOk result (λ b. b.key.items ≡ key name.now ends) }
{
    let mut text = Vec::new(alloc);
    text.extend_from_slice(name)?;
    Ok(Branch {
        number,
        name: text,
        key: key_of(alloc, name, ends)?,
    })
}

/// The branch through an instance of a module, where it is one.
fn branch_at(
    alloc: Global,
    modules: &Modules,
    types: &List<List<Option<Body>>>,
    row: &[Option<Body>],
    free: &[bool],
    marks: &[bool],
    holder: u32,
    inst: u32,
) -> Result<Option<Branch>, Memory>
    requires holder { holder < length modules.now.modules }
    requires inst { inst < length (module_at modules.now holder).insts }
    ensures { IfOk result (λ b. (s : Sources) → types.now ≡ types_of s → row.now ≡ map (λ i. type_of s i.kind) (module_at modules.now holder).insts
        → IsBranchAt s free.now marks.now (inst_at modules.now holder inst) b) }
{
    match module_in(row, inst) {
        Some(number) => {
            if is_marked(free, number) {
                return Ok(None);
            }
            let name = modules.spelling(modules.inst(holder, inst).name);
            let branch = branch_of(alloc, name, number, closes(types, marks, number))?;
            Ok(Some(branch))
        }
        None => Ok(None),
    }
}

/// The one of two branches with the lesser key, the first where they are the same.
fn lesser(best: Option<Branch>, next: Option<Branch>) -> Option<Branch>
    ensures { (s : Sources) → (free marks : List Bool) → (insts : List PlainInst) → (i : PlainInst) → IsLeastBranch s free marks insts best → IsBranchAt s free marks i next
        → IsLeastBranch s free marks (insts ++ i ∷ []) result }
{
    match next {
        Some(after) => match best {
            Some(before) => match after.key.as_slice().cmp(before.key.as_slice()) {
                Ordering::Less => Some(after),
                Ordering::Equal | Ordering::Greater => Some(before),
            },
            None => Some(after),
        },
        None => best,
    }
}

/// The branch of a module with the least key.
fn first_branch(
    alloc: Global,
    modules: &Modules,
    types: &List<List<Option<Body>>>,
    row: &[Option<Body>],
    free: &[bool],
    marks: &[bool],
    holder: u32,
) -> Result<Option<Branch>, Memory>
    requires { holder < length modules.now.modules }
    ensures { IfOk result (λ b. (s : Sources) → types.now ≡ types_of s → row.now ≡ map (λ i. type_of s i.kind) (module_at modules.now holder).insts
        → IsLeastBranch s free.now marks.now (module_at modules.now holder).insts b) }
{
    let mut best = None;
    for inst in 0..modules.module(holder).insts {
        let next = branch_at(alloc, modules, types, row, free, marks, holder, inst)?;
        best = lesser(best, next);
    }
    Ok(best)
}

/// Whether a name goes on from another behind a slash.
fn goes_on(name: &[u8], longer: &[u8]) -> bool
    ensures { GoesOn name.now longer.now → IsTrue result }
{
    match longer.strip_prefix(name) {
        Some(rest) => match rest.first() {
            Some(byte) => *byte == b'/',
            None => false,
        },
        None => false,
    }
}

/// Whether an instance of a row is of a module that isn't free.
fn is_branch(row: &[Option<Body>], free: &[bool], inst: u32) -> bool
    ensures { (k : ℕ) → module_in row.now inst ≡ Some k → (IsMarked free.now k → ⊥) → IsTrue result }
{
    match module_in(row, inst) {
        Some(number) => !is_marked(free, number),
        None => false,
    }
}

/// Whether neither of two names goes on from the other behind a slash.
fn are_apart(name: &[u8], other: &[u8]) -> bool
    ensures { IsTrue result → (GoesOn name.now other.now → ⊥) × (GoesOn other.now name.now → ⊥) }
{
    !goes_on(name, other) && !goes_on(other, name)
}

/// Whether no branch of a module goes on from a name behind a slash, and the name from none.
fn is_apart(
    modules: &Modules,
    row: &[Option<Body>],
    free: &[bool],
    holder: u32,
    name: &[u8],
) -> bool
    requires { holder < length modules.now.modules }
    ensures { IsTrue result → (n k : ℕ) → (j : PlainInst) → slice_get (module_at modules.now holder).insts n ≡ Some j → module_in row.now n ≡ Some k
        → (IsMarked free.now k → ⊥) → (GoesOn name.now j.name → ⊥) × (GoesOn j.name name.now → ⊥) }
{
    for inst in 0..modules.module(holder).insts {
        let other = modules.spelling(modules.inst(holder, inst).name);
        if is_branch(row, free, inst) && !are_apart(name, other) {
            return false;
        }
    }
    true
}

/// The module to which the walk goes on, through the instance with the least key. It gives up where a name goes on from
/// another behind a slash, since keys don't tell there which way is less.
pub(crate) fn next_module(
    alloc: Global,
    modules: &Modules,
    types: &List<List<Option<Body>>>,
    free: &[bool],
    marks: &[bool],
    holder: u32,
) -> Result<u32, Memory>
    ensures { IfOk result (λ number. (s : Sources) → types.now ≡ types_of s → s.modules ≡ modules.now.modules
        → (holder < length modules.now.modules) × IsNext s free.now marks.now (module_at modules.now holder).insts number) }
{
    if holder >= modules.len() {
        return Err(Memory);
    }
    match types.get(holder) {
        Some(row) => match first_branch(
            alloc,
            modules,
            types,
            row.as_slice(),
            free,
            marks,
            holder,
        )? {
            Some(branch) => {
                if is_apart(
                    modules,
                    row.as_slice(),
                    free,
                    holder,
                    branch.name.as_slice(),
                ) {
                    return Ok(branch.number);
                }
                Err(Memory)
            }
            None => Err(Memory),
        },
        None => Err(Memory),
    }
}
