//! What is read of rows by number.
ghost use Rattle.std.specs.Prelude.{◌≡◌, ℕ, ◌<◌, ◌++◌, List, Some, length, slice_get, OnOk};
ghost use Rattle.std.specs.List.{prefix_len};
ghost use Rattle.std.specs.List.Sorted.{IsNonDecreasingBy};
ghost use Rattle.design_defs.specs.Names.{joined};
ghost use Rattle.design_defs.specs.Walks.{next_of};
ghost use Rattle.design_rows.specs.Sound.{AreRows, Owns};
ghost use Rattle.design_rows.specs.View.{begins_by, bit_name_at, driver_in, feed_at, feeder_in, inst_at, kind_of, name_at, owner_at, parent_in, path_at, place_name, place_of_bit, port_in};

use crate::tables::{Feed, InstanceRow, KindRow, PlaceRow, Rows};
use pw_defs::{Bytes, Feeder, PortBit};
use std::alloc::AllocError;

pub fn instance(rows: &Rows, n: u32) -> InstanceRow
    requires { n < length rows.now.insts }
    ensures { result ≡ inst_at rows.now n }
{
    rows.insts.as_slice()[n as usize]
}

pub fn kind(rows: &Rows, instance: InstanceRow) -> KindRow
    requires { instance.kind < length rows.now.kinds }
    ensures { result ≡ kind_of rows.now instance }
{
    rows.kinds.as_slice()[instance.kind as usize]
}

/// What an instance is inside; the first is inside none.
pub fn parent(rows: &Rows, n: u32) -> Option<u32>
    requires { n < length rows.now.insts }
    ensures { result ≡ parent_in n (inst_at rows.now n).parent }
{
    let instance = instance(rows, n);
    if n == 0 { None } else { Some(instance.parent) }
}

pub fn feed(rows: &Rows, n: u32) -> Feed
    requires { n < length rows.now.feeds.items }
    ensures { result ≡ feed_at rows.now n }
{
    rows.feeds[n as usize]
}

/// The instance that owns a bit.
pub fn owner(rows: &Rows, n: u32) -> u32
    requires rows { AreRows rows.now }
    requires within { n < length rows.now.feeds.items }
    ensures owner { result ≡ owner_at rows.now n }
    ensures owns { Owns rows.now result n }
{
    (begun(rows.insts.as_slice(), n) - 1) as u32
}

/// How many instances begin at or before a bit.
fn begun(insts: &[InstanceRow], n: u32) -> usize
    requires { IsNonDecreasingBy (λ i. i.first_bit) insts.now }
    ensures { result ≡ prefix_len (begins_by n) insts.now }
{
    insts.partition_point(|i| i.first_bit <= n)
}

/// The place of a bit.
fn place(rows: &Rows, n: u32) -> PlaceRow
    requires rows { AreRows rows.now }
    requires within { n < length rows.now.feeds.items }
    ensures place { result ≡ place_of_bit rows.now n }
    ensures named { place_name result < length rows.now.names }
{
    let instance = instance(rows, owner(rows, n));
    let kind = kind(rows, instance);
    let places = rows.places.as_slice();
    places[(kind.first + (n - instance.first_bit)) as usize]
}

fn name_of(place: PlaceRow) -> u32
    ensures { result ≡ place_name place }
{
    match place {
        PlaceRow::Net(name) => name,
        PlaceRow::Port { name, .. } => name,
    }
}

fn port_of(owner: u32, place: PlaceRow) -> Option<PortBit>
    ensures { result ≡ port_in owner place }
{
    match place {
        PlaceRow::Net(_) => None,
        PlaceRow::Port { port, place, .. } => Some(PortBit {
            inst: owner,
            port,
            place,
        }),
    }
}

/// The port bit that a bit is.
pub fn port(rows: &Rows, n: u32) -> Option<PortBit>
    requires rows { AreRows rows.now }
    requires within { n < length rows.now.feeds.items }
    ensures { result ≡ port_in (owner_at rows.now n) (place_of_bit rows.now n) }
{
    port_of(owner(rows, n), place(rows, n))
}

/// What feeds a bit.
pub fn feeder(rows: &Rows, n: u32) -> Feeder
    requires rows { AreRows rows.now }
    requires within { n < length rows.now.feeds.items }
    ensures { result ≡ feeder_in (owner_at rows.now n) (place_of_bit rows.now n) (feed_at rows.now n) }
{
    match feed(rows, n) {
        Feed::Bit(bit) => Feeder::Bit(bit),
        Feed::Through(bit) => Feeder::Through {
            inst: owner(rows, n),
            bit,
        },
        Feed::Driver => driver(port(rows, n)),
        Feed::Constant => Feeder::Constant,
        Feed::Nothing => Feeder::Nothing,
    }
}

fn driver(port: Option<PortBit>) -> Feeder
    ensures { result ≡ driver_in port }
{
    match port {
        Some(port) => Feeder::Driver(port),
        None => Feeder::Nothing,
    }
}

/// The bit at which a walk goes on behind a bit, which is known from what feeds it, without its owner.
pub fn next(rows: &Rows, n: u32) -> Option<u32>
    requires { n < length rows.now.feeds.items }
    ensures { result ≡ next_of (feeder_in (owner_at rows.now n) (place_of_bit rows.now n) (feed_at rows.now n)) }
{
    match feed(rows, n) {
        Feed::Bit(bit) => Some(bit),
        Feed::Through(bit) => Some(bit),
        Feed::Driver | Feed::Constant | Feed::Nothing => None,
    }
}

/// Appends the path of an instance. A path has few names, since the nesting of modules has a limit.
pub fn put_path(rows: &Rows, n: u32, out: &mut Bytes) -> Result<(), AllocError>
    requires rows { AreRows rows.now }
    requires within { n < length rows.now.insts }
    ensures { OnOk result (out.new ≡ out.old ++ path_at rows.now n) }
{
    if n == 0 {
        return Ok(());
    }
    let from = out.len();
    let instance = instance(rows, n);
    put_path(rows, instance.parent, out)?;
    put_under(from, rows.names.name(instance.name), out)?;
    Ok(())
}

/// Appends the name of a bit.
pub fn put_bit_name(rows: &Rows, n: u32, out: &mut Bytes) -> Result<(), AllocError>
    requires rows { AreRows rows.now }
    requires within { n < length rows.now.feeds.items }
    ensures { OnOk result (out.new ≡ out.old ++ bit_name_at rows.now n) }
{
    let from = out.len();
    let place = place(rows, n);
    put_path(rows, owner(rows, n), out)?;
    put_under(from, rows.names.name(name_of(place)), out)?;
    Ok(())
}

/// Joins a name to the path that was appended since the text had `from` bytes.
fn put_under(from: u32, name: &[u8], out: &mut Bytes) -> Result<(), AllocError>
    ensures { (front path : List ℕ) → out.old ≡ front ++ path → length front ≡ from → OnOk result (out.new ≡ front ++ joined path name.now) }
{
    if out.len() != from {
        out.put(b"/")?;
    }
    out.put(name)
}
