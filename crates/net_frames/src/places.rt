//! The places of the bits of a body, net by net.
ghost use Rattle.std.specs.Prelude.{◌≡◌, ◌∷◌, [], ℕ, IfOk, option_map, slice_get};
ghost use Rattle.pw_defs.specs.declared.design.Body.TheVariants.{Cell as CellBody, Model as ModelBody};
ghost use Rattle.design_defs.specs.Ranges.{bit_name};
ghost use Rattle.design_rows.specs.Sound.{AreRows};
ghost use Rattle.design_rows.specs.View.{place_name, port_in};
ghost use Rattle.module_rows.specs.declared.plain.Netlist.{Netlist};
ghost use Rattle.module_rows.specs.View.{name_at};
ghost use Rattle.net_places.specs.Gathered.{net_by};
ghost use Rattle.net_frames.specs.Places.{HasBitName, HasPlaces, IsSymbolOf, bits_in, net_bits, spellings};

use bit_texts::bit_name;
use design_rows::{PlaceRow, Rows};
use module_rows::Modules;
use net_places::{NetRow, Plans, width};
use pw_defs::{Body, Bytes, Memory};

/// The name of a pin of a cell.
fn pin_name(rows: &Rows, cell: u32, pin: u32) -> Option<&[u8]>
    ensures { (n : Netlist) → option_map (λ name. name.now) result ≡ slice_get (spellings n rows.now (CellBody cell)) pin }
{
    let pins = &rows.cells.cells.get(cell)?.pins;
    Some(pins.get(pin)?.name.as_slice())
}

/// The name of a port of a model.
fn port_name(rows: &Rows, model: u32, port: u32) -> Option<&[u8]>
    ensures { (n : Netlist) → option_map (λ name. name.now) result ≡ slice_get (spellings n rows.now (ModelBody model)) port }
{
    let ports = &rows.models.get(model)?.ports;
    Some(ports.get(port)?.name.as_slice())
}

/// The spelling of a symbol.
fn symbol_name(modules: &Modules, symbol: u32) -> Option<&[u8]>
    ensures { option_map (λ name. name.now) result ≡ slice_get modules.now.symbols symbol }
{
    if symbol >= modules.symbols() {
        return None;
    }
    Some(modules.spelling(symbol))
}

/// The name of a net of a body.
fn net_name<'a>(modules: &'a Modules, rows: &'a Rows, body: Body, name: u32) -> Option<&'a [u8]>
    ensures { option_map (λ name. name.now) result ≡ slice_get (spellings modules.now rows.now body) name }
{
    match body {
        Body::Module(_) => symbol_name(modules, name),
        Body::Cell(cell) => pin_name(rows, cell, name),
        Body::Model(model) => port_name(rows, model, name),
    }
}

/// The name of a bit of a net of a body.
fn name_text(
    modules: &Modules,
    rows: &Rows,
    body: Body,
    row: NetRow,
    place: u32,
) -> Result<Bytes, Memory>
    ensures { IfOk result (λ text. text ≡ bit_name (name_at (spellings modules.now rows.now body) row.name) row.range place) }
{
    let name = net_name(modules, rows, body, row.name).ok_or(Memory)?;
    let text = bit_name(*rows.feeds.allocator(), name, row.range, u64::from(place))?;
    Ok(text)
}

/// Whether the name of a net is that of its bit, and has the number of its symbol.
fn is_symbol(modules: &Modules, body: Body, row: NetRow) -> bool
    ensures { IsSymbolOf modules.now body row result }
{
    match body {
        Body::Module(_) => match row.range {
            Some(_) => false,
            None => row.name < modules.symbols(),
        },
        Body::Cell(_) => false,
        Body::Model(_) => false,
    }
}

/// The number of the name of a bit, which is added unless it is that of a symbol.
fn name_of_bit(
    modules: &Modules,
    rows: &mut Rows,
    body: Body,
    row: NetRow,
    place: u32,
) -> Result<u32, Memory>
    requires rows { AreRows rows.old }
    ensures rows { AreRows rows.new }
    ensures named { IfOk result (λ name. HasBitName modules.now rows.old rows.new body row place name) }
{
    if is_symbol(modules, body, row) {
        return Ok(row.name);
    }
    let text = name_text(modules, rows, body, row, place)?;
    let name = rows.add_name(text.as_slice())?;
    Ok(name)
}

/// The place of a bit, of a port or of a net alone.
fn place_row(name: u32, port: Option<u32>, place: u32) -> PlaceRow
    ensures name { place_name result ≡ name }
    ensures port { (owner : ℕ) → port_in owner result ≡ option_map (λ port. record { inst = owner; port = port; place = place }) port }
{
    match port {
        Some(port) => PlaceRow::Port { name, port, place },
        None => PlaceRow::Net(name),
    }
}

/// Adds the place of a bit of a net.
fn add_bit(
    modules: &Modules,
    rows: &mut Rows,
    body: Body,
    row: NetRow,
    place: u32,
) -> Result<(), Memory>
    requires rows { AreRows rows.old }
    ensures rows { AreRows rows.new }
    ensures added { IfOk result (λ _. HasPlaces modules.now rows.old rows.new ((net_by (spellings modules.now rows.old body) row, place) ∷ [])) }
{
    let name = name_of_bit(modules, rows, body, row, place)?;
    if name >= rows.names.len() {
        return Err(Memory);
    }
    rows.add_place(place_row(name, row.port, place))?;
    Ok(())
}

/// Adds the places of the bits of a net.
fn add_net(modules: &Modules, rows: &mut Rows, body: Body, row: NetRow) -> Result<(), Memory>
    requires rows { AreRows rows.old }
    ensures rows { AreRows rows.new }
    ensures added { IfOk result (λ _. HasPlaces modules.now rows.old rows.new (net_bits (net_by (spellings modules.now rows.old body) row))) }
{
    let count = width(row.range);
    if count > 4294967295 {
        return Err(Memory);
    }
    for place in 0..count as u32 {
        add_bit(modules, rows, body, row, place)?;
    }
    Ok(())
}

/// Adds the places of the bits of a body, in the order of their numbers.
pub(crate) fn add_nets(
    modules: &Modules,
    plans: &Plans,
    rows: &mut Rows,
    body: Body,
) -> Result<(), Memory>
    requires rows { AreRows rows.old }
    ensures rows { AreRows rows.new }
    ensures added { IfOk result (λ _. HasPlaces modules.now rows.old rows.new (bits_in modules.now plans.now rows.old body)) }
{
    for net in 0..plans.nets(body) {
        let row = plans.net(body, net).ok_or(Memory)?;
        add_net(modules, rows, body, row)?;
    }
    Ok(())
}
