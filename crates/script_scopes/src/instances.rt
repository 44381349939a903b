//! Instances by their paths.
ghost use Rattle.std.specs.Prelude.{◌≡◌, ◌<◌, ◌↔◌, [], None, Some, length, unwrap_or, IfOk, IfSome, IsTrue, MatchOption};
ghost use Rattle.design_defs.specs.Joined.{path_of};
ghost use Rattle.script_defs.specs.Numbers.{inst_number};
ghost use Rattle.script_defs.specs.Scopes.{instance_at};
ghost use Rattle.script_scopes.specs.Standing.{HasOwnPaths, IsHierarchy, IsNumberAt, named_inst};

use design_paths::resolve;
use design_rows::Design;
use pw_defs::{Bytes, Memory, Named};
use std::alloc::Global;
use std::marker::Model;

/// A sound design whose top has the empty path, seen as the design.
#[derive(Drop)]
pub struct Hierarchy<'a> {
    design: &'a Design,
}

impl<'a> Model for Hierarchy<'a> {
    ghost use Rattle.pw_defs.specs.declared.design.Design.{Design as PlainDesign};
    ghost use Rattle.std.specs.Coded.{codes};
    ghost use Rattle.pw_defs.specs.contracts.netlist.Expr as expr;
    ghost use Rattle.script_scopes.specs.Standing.{IsHierarchy};

    ghost Value = { PlainDesign };

    ghost coded = { Prim.hlevel (codes, expr.the_row.coded) };

    ghost view = { λ h. h.design.now };

    ghost invariant = { λ h. IsHierarchy h.design.now };
}

impl<'a> Hierarchy<'a> {
    /// The hierarchy of a design. An error says that memory ended; it is the answer too for a design whose top has a path,
    /// which no netlist makes.
    pub fn new(alloc: Global, design: &'a Design) -> Result<Hierarchy<'a>, Memory>
        ensures { IfOk result (λ hierarchy. hierarchy ≡ design.now) }
    {
        design.sound();
        design.names();
        if !has_empty_top(alloc, design)? {
            return Err(Memory);
        }
        Ok(Hierarchy { design })
    }

    /// The design itself.
    pub fn design(&self) -> &'a Design
        ensures { result.now ≡ self.now }
    {
        self.design
    }

    /// The design is sound, and the path of its top is empty.
    pub fn sound(&self)
        ensures { IsHierarchy self.now }
    {
        let _ = &self.design;
    }

    /// What has a path is the instance that is found there.
    pub fn own_paths(&self)
        ensures { HasOwnPaths self.now }
    {
        self.sound();
    }
}

/// Whether the path of the top is empty.
fn has_empty_top(alloc: Global, design: &Design) -> Result<bool, Memory>
    ensures { IfOk result (λ empty. IsTrue empty ↔ (path_of design.now 0 ≡ Some [])) }
{
    design.sound();
    let mut path = Bytes::new(alloc);
    design.put_path(0, &mut path)?;
    Ok(path.len() == 0)
}

/// The number of what a name stands for, where it is an instance.
pub fn named_inst(named: Option<Named>) -> Option<u32>
    ensures { result ≡ named_inst named }
{
    match named? {
        Named::Instance(n) => Some(n),
        Named::Port { .. } => None,
        Named::PortBit(_) => None,
    }
}

/// The number of the instance at a path; the empty path is that of the top.
pub fn instance_at(hierarchy: &Hierarchy, path: &[u8]) -> Option<u32>
    ensures found { MatchOption result (instance_at hierarchy.now path.now ≡ None) (λ n. IsNumberAt hierarchy.now path.now n) }
    ensures within { IfSome result (λ n. n < length hierarchy.now.insts) }
    ensures path { IfSome result (λ n. path_of hierarchy.now n ≡ Some path.now) }
    ensures number { inst_number hierarchy.now path.now ≡ unwrap_or result 0 }
{
    hierarchy.sound();
    if path.is_empty() {
        return Some(0);
    }
    named_inst(resolve(hierarchy.design(), 0, path))
}
