//! Large designs: a flat one, and one of many instances of a block whose names are long.
ghost use Rattle.std.specs.Prelude.{◌≤◌, IfOk};
ghost use Rattle.design_rows.specs.Sound.{AreRows};

use crate::counts::bit_count;
use design_rows::{Feed, PlaceRow, Rows};
use pw_defs::{Body, Cells, List};
use std::alloc::{AllocError, Global};

/// A top with so many cells of three pins each, and twice as many nets.
pub fn flat(alloc: Global, cells: u32) -> Result<Rows, AllocError>
    requires { cells ≤ 1000000 }
    ensures { IfOk result (λ rows. AreRows rows) }
{
    let mut rows = empty(alloc);
    add_nets(alloc, &mut rows, 2 * cells, 0)?;
    let top = add_kind(&mut rows, Body::Module(0), 0)?;
    let cell = add_cell_kind(&mut rows)?;
    let names = rows.names.len();
    add_names(alloc, &mut rows, cells, 0)?;
    add_instance(&mut rows, 0, 0, top)?;
    add_instances(&mut rows, 0, names, cells, cell)?;
    feed_all(&mut rows);
    Ok(rows)
}

/// A top with so many instances of a block of cells. The names in the block have some 1,000 bytes.
pub fn nested(alloc: Global, blocks: u32, cells: u32) -> Result<Rows, AllocError>
    requires { cells ≤ 1000000 }
    ensures { IfOk result (λ rows. AreRows rows) }
{
    let mut rows = empty(alloc);
    let top = add_kind(&mut rows, Body::Module(0), 0)?;
    add_nets(alloc, &mut rows, 2 * cells, 990)?;
    let block = add_kind(&mut rows, Body::Module(1), 0)?;
    let cell = add_cell_kind(&mut rows)?;
    let names = rows.names.len();
    add_names(alloc, &mut rows, cells, 990)?;
    let block_names = rows.names.len();
    add_names(alloc, &mut rows, blocks, 0)?;
    add_instance(&mut rows, 0, 0, top)?;
    for block_number in 0..blocks {
        let parent = rows.insts.len();
        add_instance(
            &mut rows,
            0,
            block_names.saturating_add(block_number),
            block,
        )?;
        add_instances(&mut rows, parent, names, cells, cell)?;
    }
    feed_all(&mut rows);
    Ok(rows)
}

/// Rows without a name, a kind or an instance.
fn empty(alloc: Global) -> Rows
    ensures { AreRows result }
{
    let cells = Cells {
        cells: List::new(alloc),
    };
    Rows::new(alloc, cells, List::new(alloc), List::new(alloc))
}

/// A name of so many bytes in front of a number.
fn spelled(alloc: Global, number: u32, front: u32) -> Result<Vec<u8>, AllocError> {
    let mut name = Vec::new(alloc);
    for _ in 0..front {
        name.push(b'x')?;
    }
    let text = format!(in alloc; "u_core{number}")?;
    name.extend_from_slice(text.as_bytes())?;
    Ok(name)
}

/// So many names, each with so many bytes in front of its number.
fn add_names(alloc: Global, rows: &mut Rows, count: u32, front: u32) -> Result<(), AllocError>
    requires { AreRows rows.old }
    ensures { AreRows rows.new }
{
    for number in 0..count {
        let name = spelled(alloc, number, front)?;
        rows.add_name(name.as_slice())?;
    }
    Ok(())
}

/// So many nets with such names.
fn add_nets(alloc: Global, rows: &mut Rows, count: u32, front: u32) -> Result<(), AllocError>
    requires { AreRows rows.old }
    ensures { AreRows rows.new }
{
    for number in 0..count {
        let name = spelled(alloc, number, front)?;
        let name = rows.add_name(name.as_slice())?;
        rows.add_place(PlaceRow::Net(name))?;
    }
    Ok(())
}

/// What has the places from `first` on.
fn add_kind(rows: &mut Rows, body: Body, first: u32) -> Result<u32, AllocError>
    requires { AreRows rows.old }
    ensures { AreRows rows.new }
{
    let places = rows.places.len();
    if places < first {
        return Err(AllocError);
    }
    rows.add_kind(body, first, places - first)
}

/// A cell of three pins.
fn add_cell_kind(rows: &mut Rows) -> Result<u32, AllocError>
    requires { AreRows rows.old }
    ensures { AreRows rows.new }
{
    let first = rows.places.len();
    add_pin(rows, b"A", 0)?;
    add_pin(rows, b"B", 1)?;
    add_pin(rows, b"Y", 2)?;
    add_kind(rows, Body::Cell(0), first)
}

/// A pin of one bit.
fn add_pin(rows: &mut Rows, name: &[u8], port: u32) -> Result<(), AllocError>
    requires { AreRows rows.old }
    ensures { AreRows rows.new }
{
    let name = rows.add_name(name)?;
    rows.add_place(PlaceRow::Port {
        name,
        port,
        place: 0,
    })
}

/// An instance, where what it is inside, its name and its kind are there.
fn add_instance(rows: &mut Rows, parent: u32, name: u32, kind: u32) -> Result<(), AllocError>
    requires { AreRows rows.old }
    ensures { AreRows rows.new }
{
    let count = rows.insts.len();
    if parent >= count.max(1) || name >= rows.names.len() || kind >= rows.kinds.len() {
        return Err(AllocError);
    }
    rows.add_instance(parent, name, kind)?;
    Ok(())
}

/// So many instances inside one, with the names from `first` on.
fn add_instances(
    rows: &mut Rows,
    parent: u32,
    first: u32,
    count: u32,
    kind: u32,
) -> Result<(), AllocError>
    requires { AreRows rows.old }
    ensures { AreRows rows.new }
{
    for number in 0..count {
        add_instance(rows, parent, first.saturating_add(number), kind)?;
    }
    Ok(())
}

/// Feeds each bit from an earlier one, and each third from its own port bit.
fn feed_all(rows: &mut Rows)
    requires { AreRows rows.old }
    ensures { AreRows rows.new }
{
    for n in 0..bit_count(rows) {
        rows.set_feed(n, some_feed(n));
    }
}

/// A driver at each third bit, and else an earlier bit.
fn some_feed(n: u32) -> Feed {
    if n % 3 == 0 {
        return Feed::Driver;
    }
    Feed::Bit(n / 2)
}
