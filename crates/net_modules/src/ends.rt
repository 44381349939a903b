//! The end of a module.
ghost use Rattle.std.specs.Prelude.{◌≡◌, IfOk, map};
ghost use Rattle.std.specs.Option.{option_map};
ghost use Rattle.net_text.specs.CommaLists.{named_view};
ghost use Rattle.net_text.specs.DeclarationViews.{declaration_view};
ghost use Rattle.net_modules.specs.Drafts.{IsClosed};

use crate::contents::{add_nets, add_ports};
use crate::refusals::refusal;
use crate::tables::ports_of;
use module_rows::Builder;
use net_text::{DeclarationAt, NameAt};
use std::alloc::{AllocError, Global};

/// Ends a module with its ports and wires, or answers the first declaration that it cannot have.
pub fn end_module<'a>(
    alloc: Global,
    builder: &mut Builder,
    name: &[u8],
    line: u32,
    all: &[DeclarationAt<'a>],
) -> Result<Option<NameAt<'a>>, AllocError>
    ensures { IfOk result (λ found. IsClosed builder.old builder.new name.now line (map declaration_view all.now) (option_map named_view found)) }
{
    let ports = ports_of(alloc, all)?;
    match refusal(alloc, all, &ports)? {
        Some(refused) => return Ok(Some(refused)),
        None => {}
    }
    add_ports(alloc, builder, all, &ports)?;
    add_nets(alloc, builder, all, &ports)?;
    builder.end_module(name, line)?;
    Ok(None)
}
