//! What instances are instances of.
ghost use Rattle.std.specs.Prelude.{◌≡◌, ◌<◌, Some, length};
ghost use Rattle.design_defs.specs.Joined.{parent_of};
ghost use Rattle.design_defs.specs.Ports.{body_of};
ghost use Rattle.script_defs.specs.DesignParts.{type_name};
ghost use Rattle.script_defs.specs.Scopes.{body_at, is_leaf_cell, is_model, is_modelled, is_module};
ghost use Rattle.script_scopes.specs.Standing.{own_path};

use crate::instances::{Hierarchy, instance_at};
use pw_defs::Body;

/// What an instance is an instance of; `None` where there is no such instance.
pub fn body_of(hierarchy: &Hierarchy, n: u32) -> Option<Body>
    ensures { result ≡ body_of hierarchy.now n }
{
    let design = hierarchy.design();
    if n < design.len_insts() {
        Some(design.body(n))
    } else {
        None
    }
}

/// What the instance at a path is an instance of.
pub fn body_at(hierarchy: &Hierarchy, path: &[u8]) -> Option<Body>
    ensures { result ≡ body_at hierarchy.now path.now }
{
    match instance_at(hierarchy, path) {
        Some(n) => body_of(hierarchy, n),
        None => None,
    }
}

/// Whether it is a module.
pub fn is_module(body: Option<Body>) -> bool
    ensures { result ≡ is_module body }
{
    match body {
        Some(Body::Module(_)) => true,
        Some(Body::Cell(_)) => false,
        Some(Body::Model(_)) => false,
        None => false,
    }
}

/// Whether it is a leaf cell.
pub fn is_leaf_cell(body: Option<Body>) -> bool
    ensures { result ≡ is_leaf_cell body }
{
    match body {
        Some(Body::Module(_)) => false,
        Some(Body::Cell(_)) => true,
        Some(Body::Model(_)) => false,
        None => false,
    }
}

/// Whether it is a model.
pub fn is_model(body: Option<Body>) -> bool
    ensures { result ≡ is_model body }
{
    match body {
        Some(Body::Module(_)) => false,
        Some(Body::Cell(_)) => false,
        Some(Body::Model(_)) => true,
        None => false,
    }
}

/// Whether a model stands for an instance.
pub fn is_modelled(hierarchy: &Hierarchy, n: u32) -> bool
    requires { n < length hierarchy.now.insts }
    ensures { result ≡ is_modelled hierarchy.now (own_path hierarchy.now n) }
{
    hierarchy.sound();
    is_model(body_of(hierarchy, n))
}

/// The name of a module, cell or model; empty where there is none.
pub fn type_name<'h>(hierarchy: &'h Hierarchy, body: Option<Body>) -> &'h [u8]
    ensures { result.now ≡ type_name hierarchy.now body }
{
    let design = hierarchy.design();
    match body {
        Some(Body::Module(module)) => match design.modules().get(module) {
            Some(module) => module.name.as_slice(),
            None => &[],
        },
        Some(Body::Cell(cell)) => match design.cells().cells.get(cell) {
            Some(cell) => cell.name.as_slice(),
            None => &[],
        },
        Some(Body::Model(model)) => match design.models().get(model) {
            Some(model) => model.module.as_slice(),
            None => &[],
        },
        None => &[],
    }
}

/// What an instance below the top is inside.
pub(crate) fn outer(hierarchy: &Hierarchy, n: u32) -> u32
    requires later { 0 < n }
    requires within { n < length hierarchy.now.insts }
    ensures outer { parent_of hierarchy.now n ≡ Some (Some result) }
    ensures before { result < n }
{
    hierarchy.sound();
    match hierarchy.design().parent(n) {
        Some(parent) => parent,
        None => 0,
    }
}
