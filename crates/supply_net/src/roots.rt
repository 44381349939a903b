//! The root of a supply: the end of its feeders, or the first of some supplies on the way there.
ghost use Rattle.std.specs.Prelude.{◌≡◌, ◌<◌, length};
ghost use Rattle.supply_defs.specs.Network.{IsRoot, HasFeedersInRange, HasNoFeederRing};

use pw_defs::{List, Supply};

/// The root of a supply, where the feeders end at the supplies of `stop`. It goes up from feeder to feeder, and looks for
/// each in `stop`; the roots of many supplies of a unit are found at once by `unit_lists`.
pub fn root_of(supplies: &List<Supply>, supply: u32, stop: &[u32]) -> u32
    requires there { supply < length supplies.now }
    requires in_range { HasFeedersInRange supplies.now }
    requires ringless { HasNoFeederRing supplies.now }
    ensures { IsRoot supplies.now stop.now supply result }
{
    let items = supplies.as_slice();
    let mut at = supply;
    for step in 0..supplies.len() {
        if stop.contains(&at) {
            return at;
        }
        match items[at as usize].feeder {
            Some(feeder) => at = feeder,
            None => return at,
        }
    }
    at
}
