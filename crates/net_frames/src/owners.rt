//! Which bits are fed by their own instances.
ghost use Rattle.std.specs.Prelude.{◌≡◌, ◌+◌, ◌<◌, ℕ, IfOk, IfSome, IsTrue, Some, length, slice_get};
ghost use Rattle.pw_defs.specs.declared.design.Body.TheVariants.{Module as ModuleBody, Cell as CellBody, Model as ModelBody};
ghost use Rattle.design_defs.specs.Drivers.{begins_signal_in, is_interface_cell, passes_on_in};
ghost use Rattle.design_defs.specs.Ports.{dir_in, is_input, is_output};
ghost use Rattle.design_rows.specs.Sound.{AreRows};
ghost use Rattle.design_rows.specs.View.{design_of, inst_at, place_at, size};
ghost use Rattle.net_frames.specs.Feeding.{body_in, own_port, HasThrough, IsFeed, IsOfPort, IsThroughPin};

use design_rows::{Feed, KindRow, PlaceRow, Rows, reads};
use pw_defs::{Body, Dir, Memory};

/// The direction of a port of a module.
fn module_dir(rows: &Rows, number: u32, port: u32) -> Option<Dir>
    ensures { result ≡ dir_in (design_of rows.now) (ModuleBody number) port }
{
    Some(rows.modules.get(number)?.ports.get(port)?.dir)
}

/// The direction of a pin of a cell.
fn cell_dir(rows: &Rows, number: u32, pin: u32) -> Option<Dir>
    ensures { result ≡ dir_in (design_of rows.now) (CellBody number) pin }
{
    Some(rows.cells.cells.get(number)?.pins.get(pin)?.dir)
}

/// The direction of a port of a model.
fn model_dir(rows: &Rows, number: u32, port: u32) -> Option<Dir>
    ensures { result ≡ dir_in (design_of rows.now) (ModelBody number) port }
{
    Some(rows.models.get(number)?.ports.get(port)?.dir)
}

/// Whether it is the direction of an input.
fn is_in(dir: Option<Dir>) -> bool
    ensures { result ≡ is_input dir }
{
    match dir {
        Some(Dir::Input) => true,
        Some(Dir::Output) => false,
        None => false,
    }
}

/// Whether it is the direction of an output.
fn is_out(dir: Option<Dir>) -> bool
    ensures { result ≡ is_output dir }
{
    match dir {
        Some(Dir::Input) => false,
        Some(Dir::Output) => true,
        None => false,
    }
}

/// Whether a cell is an isolation cell or a level shifter.
fn is_interface(rows: &Rows, number: u32) -> bool
    ensures { result ≡ is_interface_cell (slice_get rows.now.cells.cells number) }
{
    match rows.cells.cells.get(number) {
        Some(cell) => cell.iso || cell.shift,
        None => false,
    }
}

/// Whether a signal begins at the bits of a port of an instance.
fn begins(rows: &Rows, inst: u32, body: Body, port: u32) -> bool
    ensures { (place : ℕ) → begins_signal_in (design_of rows.now) body (record { inst = inst; port = port; place = place }) ≡ result }
{
    match body {
        Body::Module(number) => inst == 0 && is_in(module_dir(rows, number, port)),
        Body::Cell(number) => is_out(cell_dir(rows, number, port)) && !is_interface(rows, number),
        Body::Model(number) => is_out(model_dir(rows, number, port)),
    }
}

/// Whether the bits of a port pass on what comes in at the through pin.
fn passes(rows: &Rows, body: Body, port: u32) -> bool
    ensures { (inst place : ℕ) → passes_on_in (design_of rows.now) body (record { inst = inst; port = port; place = place }) ≡ result }
{
    match body {
        Body::Module(_) => false,
        Body::Cell(number) => is_out(cell_dir(rows, number, port)) && is_interface(rows, number),
        Body::Model(_) => false,
    }
}

/// The through pin of a body that is a cell.
pub(crate) fn through_pin(rows: &Rows, body: Body) -> Option<u32>
    ensures { IfSome result (λ pin. HasThrough rows.now body pin) }
{
    match body {
        Body::Module(_) => None,
        Body::Cell(number) => rows.cells.cells.get(number)?.through,
        Body::Model(_) => None,
    }
}

/// Whether a place is that of a bit of this port.
pub(crate) fn is_of_port(place: PlaceRow, port: u32) -> bool
    ensures { IsTrue result → IsOfPort place port }
{
    match place {
        PlaceRow::Net(_) => false,
        PlaceRow::Port { port: own, .. } => own == port,
    }
}

/// The place of a bit of a kind.
fn place_of(rows: &Rows, kind: KindRow, at: u32) -> PlaceRow
    requires { kind.first + at < length rows.now.places }
    ensures { result ≡ place_at rows.now (kind.first + at) }
{
    let places = rows.places.as_slice();
    places[(kind.first + at) as usize]
}

/// A sum, where it can be the number of a bit.
fn sum_of(first: u32, more: u32) -> Option<u32>
    ensures { IfSome result (λ sum. sum ≡ first + more) }
{
    first.checked_add(more)
}

/// The bit of the through pin of an instance, where it stands at this place of its kind.
fn through_bit(rows: &Rows, inst: u32, at: u32) -> Result<u32, Memory>
    requires rows { AreRows rows.now }
    requires there { inst < length rows.now.insts }
    ensures { IfOk result (λ bit. (bit ≡ (inst_at rows.now inst).first_bit + at) × IsThroughPin rows.now inst at) }
{
    let row = reads::instance(rows, inst);
    let kind = reads::kind(rows, row);
    let pin = through_pin(rows, kind.body).ok_or(Memory)?;
    if at >= kind.size {
        return Err(Memory);
    }
    if !is_of_port(place_of(rows, kind, at), pin) {
        return Err(Memory);
    }
    let bit = sum_of(row.first_bit, at).ok_or(Memory)?;
    Ok(bit)
}

/// What feeds a bit of a port of an instance that links feed so.
fn port_feed(
    rows: &Rows,
    through: u32,
    inst: u32,
    body: Body,
    port: u32,
    linked: Feed,
) -> Result<Feed, Memory>
    requires rows { AreRows rows.now }
    requires there { inst < length rows.now.insts }
    requires body { body ≡ body_in rows.now inst }
    ensures { IfOk result (λ made. (at place : ℕ) → own_port rows.now inst at ≡ Some (record { inst = inst; port = port; place = place }) → IsFeed rows.now inst at linked made) }
{
    if begins(rows, inst, body, port) {
        return Ok(Feed::Driver);
    }
    if passes(rows, body, port) {
        let bit = through_bit(rows, inst, through)?;
        return Ok(Feed::Through(bit));
    }
    Ok(linked)
}

/// What feeds a bit of an instance that links feed so. The bit of a through pin of the instance stands at the place
/// `through` of its kind.
pub(crate) fn own_feed(
    rows: &Rows,
    through: u32,
    inst: u32,
    at: u32,
    linked: Feed,
) -> Result<Feed, Memory>
    requires rows { AreRows rows.now }
    requires there { inst < length rows.now.insts }
    requires within { at < size rows.now (inst_at rows.now inst) }
    ensures { IfOk result (λ made. IsFeed rows.now inst at linked made) }
{
    let kind = reads::kind(rows, reads::instance(rows, inst));
    match place_of(rows, kind, at) {
        PlaceRow::Net(_) => Ok(linked),
        PlaceRow::Port { port, .. } => {
            let feed = port_feed(rows, through, inst, kind.body, port, linked)?;
            Ok(feed)
        }
    }
}
