//! The first declaration that a module cannot have.
ghost use Rattle.std.specs.Prelude.{◌≡◌, Option, Some, IfOk, is_some, not, map};
ghost use Rattle.std.specs.List.{filter};
ghost use Rattle.std.specs.Option.{option_map};
ghost use Rattle.net_text.specs.CommaLists.{named_view};
ghost use Rattle.net_text.specs.DeclarationViews.{declaration_view};
ghost use Rattle.net_text.specs.ParserViews.{shape_view};
ghost use Rattle.net_text.specs.SecondDeclarations.{HeaderPort, PortDirection, WireName, named_in};
ghost use Rattle.net_modules.specs.Refusals.{IsRefusal};
ghost use Rattle.net_modules.specs.Sayings.{is_other, is_refused, range_in, same_range, says_port};
ghost use Rattle.net_modules.specs.SaidTables.{HasPlaces, IsTableOf, said_at, said_view};

use crate::names::name_in;
use crate::said::Said;
use crate::tables::SaidTable;
use net_text::{DeclarationAt, NameAt, ShapeOf};
use std::alloc::{AllocError, Global};

/// Whether two ranges are the same.
fn same_range(one: Option<(u32, u32)>, other: Option<(u32, u32)>) -> bool
    ensures { result ≡ same_range one other }
{
    match one {
        None => match other {
            None => true,
            Some(_) => false,
        },
        Some((left, right)) => match other {
            None => false,
            Some((other_left, other_right)) => left == other_left && right == other_right,
        },
    }
}

/// Whether a range was given, and is another one.
fn is_other(given: Option<Option<(u32, u32)>>, range: Option<(u32, u32)>) -> bool
    ensures { result ≡ is_other given range }
{
    match given {
        None => false,
        Some(given) => !same_range(given, range),
    }
}

/// Whether a port was given another range.
fn is_port_other(given: Option<ShapeOf>, range: Option<(u32, u32)>) -> bool
    ensures { result ≡ is_other (option_map range_in (option_map shape_view given)) range }
{
    match given {
        None => false,
        Some(given) => !same_range(given.range, range),
    }
}

/// Whether the table of ports has no direction of a name.
fn is_undirected(ports: &SaidTable, name: &[u8]) -> bool
    requires { HasPlaces ports.now }
    ensures { result ≡ not (is_some (said_at ports.now name.now).shape) }
{
    match ports.said(name).shape {
        None => true,
        Some(_) => false,
    }
}

/// Whether a module cannot have a declaration, by what those before it and the table of ports say of its name.
fn is_refused(declaration: &DeclarationAt<'_>, before: Said, ports: &SaidTable) -> bool
    requires { HasPlaces ports.now }
    ensures { result ≡ is_refused (said_view before) (is_some (said_at ports.now (named_in (declaration_view declaration.now)).text).shape) (declaration_view declaration.now) }
{
    match declaration {
        DeclarationAt::HeaderPort { name, shape: None } => {
            before.named || is_undirected(ports, name.text)
        }
        DeclarationAt::HeaderPort { shape: Some(_), .. } => before.named,
        DeclarationAt::PortDirection { shape, .. } => {
            !before.port || (before.shape.is_some() || is_other(before.wire, shape.range))
        }
        DeclarationAt::WireName { range, .. } => {
            before.wire.is_some() || (before.inst || is_port_other(before.shape, *range))
        }
        DeclarationAt::InstanceName { .. } => before.named,
    }
}

/// The first declaration that a module cannot have, by the table of what is said of its ports.
pub fn refusal<'a>(
    alloc: Global,
    all: &[DeclarationAt<'a>],
    ports: &SaidTable,
) -> Result<Option<NameAt<'a>>, AllocError>
    requires { IsTableOf ports.now (filter says_port (map declaration_view all.now)) }
    ensures { IfOk result (λ found. IsRefusal (map declaration_view all.now) (option_map named_view found)) }
{
    let mut so_far = SaidTable::new(alloc);
    for declaration in all {
        let before = so_far.add(declaration)?;
        if is_refused(declaration, before, ports) {
            return Ok(Some(name_in(declaration)));
        }
    }
    Ok(None)
}
