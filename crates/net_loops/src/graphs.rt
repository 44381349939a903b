//! What feeds each bit, by links and inside instances, as `IsGraph` says. Bits and instances stand in one order, so one walk
//! through both finds the instance of each bit.
ghost use Rattle.std.specs.Prelude.{◌≡◌, ◌+◌, ◌<◌, ◌≤◌, ◌++◌, ◌∷◌, [], IfOk, OnOk, Some, length, slice_get};
ghost use Rattle.std.specs.Option.{option_to_list};
ghost use Rattle.net_instances.specs.declared.numbering.InstanceRow.{InstanceRow as Instance};
ghost use Rattle.net_loops.specs.Graphs.{IsGraph, inner_bit, linked_bit};

use design_rows::Feed;
use net_inner::Inner;
use net_instances::{InstanceRow, Instances};
use net_rings::BitGraph;
use pw_defs::Memory;
use std::alloc::Global;

/// The last instance, from one on, that begins at or before a bit.
fn next_owner(rows: &[InstanceRow], from: usize, bit: u32) -> usize
    requires { from < length rows.now }
    ensures within { result < length rows.now }
    ensures before { ((row : Instance) → slice_get rows.now from ≡ Some row → row.first_bit ≤ bit) → (row : Instance) → slice_get rows.now result ≡ Some row → row.first_bit ≤ bit }
    ensures next { (row : Instance) → slice_get rows.now (result + 1) ≡ Some row → bit < row.first_bit }
{
    let mut owner = from;
    while owner + 1 < rows.len() && rows[owner + 1].first_bit <= bit {
        owner += 1;
    }
    owner
}

/// The bit at the other end of a link.
fn linked_bit(feed: Feed) -> Option<u32>
    ensures { result ≡ linked_bit (Some feed) }
{
    match feed {
        Feed::Bit(bit) => Some(bit),
        Feed::Through(_) | Feed::Driver | Feed::Constant | Feed::Nothing => None,
    }
}

/// The bit that feeds another inside an instance.
fn inner_bit(inner: &Inner, row: InstanceRow, bit: u32) -> Result<Option<u32>, Memory>
    ensures { IfOk result (λ source. source ≡ inner_bit inner.now row bit) }
{
    match inner.source(row.body, bit.saturating_sub(row.first_bit)) {
        Some(local) => match row.first_bit.checked_add(local) {
            Some(source) => Ok(Some(source)),
            None => Err(Memory),
        },
        None => Ok(None),
    }
}

/// Adds what feeds a bit, if anything does.
fn push_if(sources: &mut Vec<u32>, source: Option<u32>) -> Result<(), Memory>
    ensures { OnOk result (sources.new.items ≡ sources.old.items ++ option_to_list source) }
{
    match source {
        Some(bit) => {
            sources.push(bit)?;
            Ok(())
        }
        None => Ok(()),
    }
}

/// Adds a bit with what feeds it.
fn add_bit(
    alloc: Global,
    graph: &mut BitGraph,
    linked: Option<u32>,
    inner: Option<u32>,
) -> Result<(), Memory>
    ensures { OnOk result (graph.new ≡ graph.old ++ (option_to_list linked ++ option_to_list inner) ∷ []) }
{
    let mut sources = Vec::new(alloc);
    push_if(&mut sources, linked)?;
    push_if(&mut sources, inner)?;
    graph.add_bit(sources.as_slice())?;
    Ok(())
}

/// What feeds each bit of a design.
pub(crate) fn graph_of(
    alloc: Global,
    instances: &Instances,
    inner: &Inner,
    feeds: &[Feed],
) -> Result<BitGraph, Memory>
    ensures { IfOk result (λ graph. IsGraph instances.now.rows inner.now feeds.now graph) }
{
    let rows = instances.rows.as_slice();
    let mut graph = BitGraph::new(alloc);
    if rows.is_empty() || feeds.len() > 4294967295 {
        return Err(Memory);
    }
    let mut owner = 0;
    for bit in 0..feeds.len() {
        owner = next_owner(rows, owner, bit as u32);
        let inside = inner_bit(inner, rows[owner], bit as u32)?;
        add_bit(alloc, &mut graph, linked_bit(feeds[bit]), inside)?;
    }
    Ok(graph)
}
