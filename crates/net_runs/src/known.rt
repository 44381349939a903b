//! Nets by the symbols of their names.
ghost use Rattle.std.specs.Prelude.{◌≡◌, length, slice_get};
ghost use Rattle.pw_defs.specs.declared.design.Body.TheVariants.{Module as ModuleBody};
ghost use Rattle.net_places.specs.Plans.{rows_at};
ghost use Rattle.net_runs.specs.Known.{known_in, noted, AreKnown, HasKnown};

use net_places::Plans;
use pw_defs::Body;

/// A module, and the number of a net of it.
#[derive(Clone, Copy)]
pub(crate) struct Known {
    pub(crate) holder: u32,
    pub(crate) net: u32,
}

/// What is known of a symbol.
pub(crate) fn known_at(known: &[Option<Known>], symbol: u32) -> Option<Known>
    ensures { result ≡ known_in known.now symbol }
{
    match known.get(symbol as usize) {
        Some(of_symbol) => *of_symbol,
        None => None,
    }
}

/// Notes a net of a module under its name.
fn note_net(plans: &Plans, holder: u32, net: u32, known: &mut Vec<Option<Known>>)
    ensures { known.new.items ≡ noted known.old.items holder net (slice_get (rows_at plans.now (ModuleBody holder)) net) }
{
    if let Some(row) = plans.net(Body::Module(holder), net) {
        if (row.name as usize) < known.len() {
            known[row.name as usize] = Some(Known { holder, net });
        }
    }
}

/// Notes the nets of a module under their names.
pub(crate) fn note_nets(plans: &Plans, holder: u32, known: &mut Vec<Option<Known>>)
    ensures count { length known.new.items ≡ length known.old.items }
    ensures known { AreKnown plans.now known.old.items → AreKnown plans.now known.new.items }
    ensures all { HasKnown holder (rows_at plans.now (ModuleBody holder)) (length (rows_at plans.now (ModuleBody holder))) known.new.items }
{
    for net in 0..plans.nets(Body::Module(holder)) {
        note_net(plans, holder, net, known);
    }
}
