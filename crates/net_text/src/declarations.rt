//! What a module declares, in the order of its text.
ghost use Rattle.std.specs.Prelude.{◌≡◌, ◌++◌, Some, OnOk, map, unwrap_or};
ghost use Rattle.std.specs.Option.{option_map};
ghost use Rattle.net_text.specs.SecondDeclarations.{shaped_ports, header_ports, item_declarations};
ghost use Rattle.net_text.specs.CommaLists.{named_view};
ghost use Rattle.net_text.specs.ParserViews.{shape_view};
ghost use Rattle.net_text.specs.ItemViews.{item_view};
ghost use Rattle.net_text.specs.HeaderViews.{port_view, header_view};
ghost use Rattle.net_text.specs.DeclarationViews.{declaration_view, declared_as};

use crate::headers::{HeaderAt, PortAt};
use crate::items::ItemAt;
use crate::phrases::ShapeOf;
use crate::tokens::NameAt;
use pw_defs::List;
use std::alloc::AllocError;

/// A declaration of a module, with the name and its line.
#[derive(Clone, Copy)]
pub enum DeclarationAt<'a> {
    HeaderPort {
        name: NameAt<'a>,
        shape: Option<ShapeOf>,
    },
    PortDirection {
        name: NameAt<'a>,
        shape: ShapeOf,
    },
    WireName {
        name: NameAt<'a>,
        range: Option<(u32, u32)>,
    },
    InstanceName {
        name: NameAt<'a>,
    },
}

/// What the names of a list are.
#[derive(Clone, Copy)]
enum NamesAs {
    HeaderPorts,
    Directions(ShapeOf),
    Wires(Option<(u32, u32)>),
}

/// What a name of a list declares.
fn declared_as<'a>(names: NamesAs, name: NameAt<'a>) -> DeclarationAt<'a>
    ensures { declaration_view result ≡ declared_as names (named_view name.entry) }
{
    match names {
        NamesAs::HeaderPorts => DeclarationAt::HeaderPort { name, shape: None },
        NamesAs::Directions(shape) => DeclarationAt::PortDirection { name, shape },
        NamesAs::Wires(range) => DeclarationAt::WireName { name, range },
    }
}

/// Adds what the names of a list declare.
fn add_names<'a>(
    names: &[NameAt<'a>],
    kind: NamesAs,
    all: &mut List<DeclarationAt<'a>>,
) -> Result<(), AllocError>
    ensures { OnOk result (map declaration_view all.new ≡ map declaration_view all.old ++ map (declared_as kind) (map named_view names.now)) }
{
    for name in names {
        all.push(declared_as(kind, *name))?;
    }
    Ok(())
}

/// The direction and range of a port, which are those of the port before it where it says none.
fn shape_at(port: &PortAt<'_>, before: ShapeOf) -> ShapeOf
    ensures { shape_view result ≡ unwrap_or (option_map shape_view port.now.shape) (shape_view before) }
{
    match port.shape {
        None => before,
        Some(shape) => shape,
    }
}

/// Adds the further ports of a header with directions.
fn add_ports<'a>(
    shape: ShapeOf,
    ports: &[PortAt<'a>],
    all: &mut List<DeclarationAt<'a>>,
) -> Result<(), AllocError>
    ensures { OnOk result (map declaration_view all.new ≡ map declaration_view all.old ++ shaped_ports (shape_view shape) (map port_view ports.now)) }
{
    let mut shape = shape;
    for port in ports {
        shape = shape_at(port, shape);
        all.push(DeclarationAt::HeaderPort {
            name: port.name,
            shape: Some(shape),
        })?;
    }
    Ok(())
}

/// Adds the ports of a header.
pub fn add_header<'a>(
    header: &HeaderAt<'a>,
    all: &mut List<DeclarationAt<'a>>,
) -> Result<(), AllocError>
    ensures { OnOk result (map declaration_view all.new ≡ map declaration_view all.old ++ header_ports (header_view header.now)) }
{
    match header {
        HeaderAt::Names(names) => {
            add_names(names.as_slice(), NamesAs::HeaderPorts, all)?;
            Ok(())
        }
        HeaderAt::Shaped { shape, name, more } => {
            all.push(DeclarationAt::HeaderPort {
                name: *name,
                shape: Some(*shape),
            })?;
            add_ports(*shape, more.as_slice(), all)?;
            Ok(())
        }
    }
}

/// Adds what an item declares.
pub fn add_item<'a>(item: &ItemAt<'a>, all: &mut List<DeclarationAt<'a>>) -> Result<(), AllocError>
    ensures { OnOk result (map declaration_view all.new ≡ map declaration_view all.old ++ item_declarations (item_view item.now)) }
{
    match item {
        ItemAt::Directions { shape, names } => {
            add_names(names.as_slice(), NamesAs::Directions(*shape), all)?;
            Ok(())
        }
        ItemAt::Wires { range, names } => {
            add_names(names.as_slice(), NamesAs::Wires(*range), all)?;
            Ok(())
        }
        ItemAt::Assigns(_) => Ok(()),
        ItemAt::Instance { name, .. } => {
            all.push(DeclarationAt::InstanceName { name: *name })?;
            Ok(())
        }
    }
}
