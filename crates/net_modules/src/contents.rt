//! The ports and wires of a module, by what it declares.
ghost use Rattle.std.specs.Prelude.{◌≡◌, IfOk, OnOk, if◌then◌else◌, Some, None, map};
ghost use Rattle.std.specs.List.{filter, filter_map};
ghost use Rattle.std.specs.Option.{option_map};
ghost use Rattle.net_text.specs.DeclarationViews.{declaration_view};
ghost use Rattle.net_text.specs.ModulesMeant.{net_in, port_in};
ghost use Rattle.net_modules.specs.Drafts.{with_net_option, with_nets, with_port_option, with_ports};
ghost use Rattle.net_modules.specs.Sayings.{says_port};
ghost use Rattle.net_modules.specs.SaidTables.{HasPlaces, IsTableOf, net_by, port_by, port_of, said_at};

use crate::tables::SaidTable;
use module_rows::Builder;
use net_text::{DeclarationAt, NameAt};
use pw_defs::{Name, Net, Port};
use std::alloc::{AllocError, Global};

/// The port of a name of the header, where the table has its direction.
fn header_port(
    alloc: Global,
    name: NameAt<'_>,
    ports: &SaidTable,
) -> Result<Option<Port>, AllocError>
    requires { HasPlaces ports.now }
    ensures { IfOk result (λ port. port ≡ option_map (port_of name.entry.text.now) (said_at ports.now name.entry.text.now).shape) }
{
    match ports.said(name.text).shape {
        None => Ok(None),
        Some(shape) => {
            let name = Name::from_slice(alloc, name.text)?;
            Ok(Some(Port {
                name,
                dir: shape.dir,
                range: shape.range,
            }))
        }
    }
}

/// The port that a declaration is, with the direction and range that the table has of it.
fn port_by(
    alloc: Global,
    declaration: &DeclarationAt<'_>,
    ports: &SaidTable,
) -> Result<Option<Port>, AllocError>
    requires { HasPlaces ports.now }
    ensures { IfOk result (λ port. port ≡ port_by ports.now (declaration_view declaration.now)) }
{
    match declaration {
        DeclarationAt::HeaderPort { name, .. } => header_port(alloc, *name, ports),
        DeclarationAt::PortDirection { .. } => Ok(None),
        DeclarationAt::WireName { .. } => Ok(None),
        DeclarationAt::InstanceName { .. } => Ok(None),
    }
}

/// A wire, if the table has no port of its name.
fn own_wire(
    alloc: Global,
    name: NameAt<'_>,
    range: Option<(u32, u32)>,
    ports: &SaidTable,
) -> Result<Option<Net>, AllocError>
    requires { HasPlaces ports.now }
    ensures { IfOk result (λ net. net ≡ (if (said_at ports.now name.entry.text.now).port then None else Some (record { name = name.entry.text.now; range = range }))) }
{
    if ports.said(name.text).port {
        return Ok(None);
    }
    let name = Name::from_slice(alloc, name.text)?;
    Ok(Some(Net { name, range }))
}

/// The wire that a declaration is, if it doesn't repeat a port.
fn net_by(
    alloc: Global,
    declaration: &DeclarationAt<'_>,
    ports: &SaidTable,
) -> Result<Option<Net>, AllocError>
    requires { HasPlaces ports.now }
    ensures { IfOk result (λ net. net ≡ net_by ports.now (declaration_view declaration.now)) }
{
    match declaration {
        DeclarationAt::HeaderPort { .. } => Ok(None),
        DeclarationAt::PortDirection { .. } => Ok(None),
        DeclarationAt::WireName { name, range } => own_wire(alloc, *name, *range, ports),
        DeclarationAt::InstanceName { .. } => Ok(None),
    }
}

/// Adds the port that a declaration is, if it is one.
fn add_port(
    alloc: Global,
    builder: &mut Builder,
    declaration: &DeclarationAt<'_>,
    ports: &SaidTable,
) -> Result<(), AllocError>
    requires { HasPlaces ports.now }
    ensures { OnOk result (builder.new ≡ with_port_option builder.old (port_by ports.now (declaration_view declaration.now))) }
{
    match port_by(alloc, declaration, ports)? {
        None => Ok(()),
        Some(port) => {
            builder.add_port(&port)?;
            Ok(())
        }
    }
}

/// Adds the wire that a declaration is, if it is one.
fn add_net(
    alloc: Global,
    builder: &mut Builder,
    declaration: &DeclarationAt<'_>,
    ports: &SaidTable,
) -> Result<(), AllocError>
    requires { HasPlaces ports.now }
    ensures { OnOk result (builder.new ≡ with_net_option builder.old (net_by ports.now (declaration_view declaration.now))) }
{
    match net_by(alloc, declaration, ports)? {
        None => Ok(()),
        Some(net) => {
            builder.add_net(&net)?;
            Ok(())
        }
    }
}

/// Adds the ports of a module, in the order of its header.
pub fn add_ports(
    alloc: Global,
    builder: &mut Builder,
    all: &[DeclarationAt<'_>],
    ports: &SaidTable,
) -> Result<(), AllocError>
    requires { IsTableOf ports.now (filter says_port (map declaration_view all.now)) }
    ensures { OnOk result (builder.new ≡ with_ports builder.old (filter_map (port_in (map declaration_view all.now)) (map declaration_view all.now))) }
{
    for declaration in all {
        add_port(alloc, builder, declaration, ports)?;
    }
    Ok(())
}

/// Adds the wires of a module, without those that repeat a port.
pub fn add_nets(
    alloc: Global,
    builder: &mut Builder,
    all: &[DeclarationAt<'_>],
    ports: &SaidTable,
) -> Result<(), AllocError>
    requires { IsTableOf ports.now (filter says_port (map declaration_view all.now)) }
    ensures { OnOk result (builder.new ≡ with_nets builder.old (filter_map (net_in (map declaration_view all.now)) (map declaration_view all.now))) }
{
    for declaration in all {
        add_net(alloc, builder, declaration, ports)?;
    }
    Ok(())
}
