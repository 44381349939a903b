//! The net of a name, in any body.
ghost use Rattle.std.specs.Prelude.{◌≡◌, MatchOption, None};
ghost use Rattle.design_defs.specs.Hierarchy.{Sources, HasBody};
ghost use Rattle.net_places.specs.Nets.{own_net};
ghost use Rattle.net_places.specs.Plans.{ArePlans, IsOf};
ghost use Rattle.net_runs.specs.Known.{IsNetRow};

use net_places::{NetRow, Plans, Spellings};
use pw_defs::Body;

/// The net of a module, the pin of a cell or the port of a model, by its name, `None` where it owns none of this name.
pub fn net_of(plans: &Plans, spellings: &Spellings, body: Body, name: &[u8]) -> Option<NetRow>
    ensures { (s : Sources) → IsOf spellings.now.modules.now spellings.now.cells.now spellings.now.models.now s
        → ArePlans s spellings.now.modules.now.symbols plans.now → HasBody s body
        → MatchOption result (own_net s body name.now ≡ None) (IsNetRow s body name.now) }
{
    let net = plans.find(spellings, body, name)?;
    plans.net(body, net)
}
