//! The rows of a whole design.
ghost use Rattle.std.specs.Prelude.{◌≡◌, [], List, IfOk, length};
ghost use Rattle.design_defs.specs.Bits.{IsSpot, Spot, spot_cmp};
ghost use Rattle.design_defs.specs.Designs.{IsMadeFrom};
ghost use Rattle.design_defs.specs.Hierarchy.{Sources, AreNamedInsts};
ghost use Rattle.design_rows.specs.Children.{HasNames};
ghost use Rattle.design_rows.specs.Sound.{AreRows};
ghost use Rattle.design_rows.specs.View.{design_of};
ghost use Rattle.list_defs.specs.Orders.{AreAllRising};
ghost use Rattle.net_feeds.specs.Feeds.{AreFedSo};
ghost use Rattle.net_frames.specs.Places.{with_parts};
ghost use Rattle.net_instances.specs.Instances.{AreInstances};
ghost use Rattle.net_places.specs.Plans.{ArePlans, IsOf};
ghost use Rattle.net_sizes.specs.declared.sizes.Counts.{Counts};

use crate::feeding::{feed_all, through_places};
use crate::framing::add_instances;
use design_rows::{Feed, Rows};
use module_rows::Modules;
use net_instances::Instances;
use net_places::Plans;
use pw_defs::{Cells, List, Memory, Model, Module};
use std::alloc::Global;

/// Adds the spellings of all symbols as names.
fn add_symbols(modules: &Modules, rows: &mut Rows) -> Result<(), Memory>
    requires { AreRows rows.old }
    ensures rows { AreRows rows.new }
    ensures added { IfOk result (λ _. rows.new ≡ with_parts rows.old modules.now.symbols [] []) }
{
    for symbol in 0..modules.symbols() {
        rows.add_name(modules.spelling(symbol))?;
    }
    Ok(())
}

/// The rows whose bits are fed so.
fn with_feeds(rows: Rows, feeds: Vec<Feed>) -> Result<Rows, Memory>
    requires { AreRows rows }
    ensures rows { IfOk result (λ made. AreRows made) }
    ensures count { IfOk result (λ _. length feeds.items ≡ length rows.feeds.items) }
    ensures fed { IfOk result (λ made. made ≡ record rows { feeds = feeds }) }
{
    if feeds.len() != rows.feeds.len() {
        return Err(Memory);
    }
    let mut rows = rows;
    rows.feeds = feeds;
    Ok(rows)
}

/// The rows of a design: of the modules, the cells and the models, of what their nets are, of all instances, and of what
/// links feed each bit with.
///
/// Time and memory go with the instances, with the bits of the design, and with those of what its instances are instances
/// of.
///
/// `Memory` comes where memory runs out, and where there are more than 4,294,967,295 bits, names or places; also where what
/// is given isn't all of one design.
pub fn rows_of(
    alloc: Global,
    modules: &Modules,
    cells: Cells,
    models: List<Model>,
    plans: &Plans,
    instances: &Instances,
    feeds: Vec<Feed>,
) -> Result<Rows, Memory>
    ensures rows { IfOk result (λ rows. AreRows rows) }
    ensures made { IfOk result (λ rows. (s : Sources) (bits : Counts) (spots : List Spot) → IsOf modules.now cells models s
        → ArePlans s modules.now.symbols plans.now → AreInstances s modules.now bits instances.now → AreAllRising spot_cmp (IsSpot s) spots
        → AreFedSo s spots feeds.items → IsMadeFrom s (design_of rows)) }
    ensures names { IfOk result (λ rows. (s : Sources) (bits : Counts) → IsOf modules.now cells models s → AreInstances s modules.now bits instances.now
        → AreNamedInsts s → HasNames rows) }
{
    let heads = modules.heads(alloc)?;
    let mut rows = Rows::new(alloc, cells, heads, models);
    add_symbols(modules, &mut rows)?;
    add_instances(alloc, modules, plans, instances, &mut rows)?;
    let throughs = through_places(alloc, &rows)?;
    let mut feeds = feeds;
    feed_all(&rows, throughs.as_slice(), &mut feeds)?;
    let whole = with_feeds(rows, feeds)?;
    Ok(whole)
}
