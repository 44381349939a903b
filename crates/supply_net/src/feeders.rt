//! The end of a supply's feeders, found by going up several at a time.
//!
//! For each supply one further up its feeders is kept. Each search halves the way of all supplies that it comes to, so
//! searches and joinings of n supplies take no more than about n times the logarithm of n steps.
ghost use Rattle.std.specs.Prelude.{◌≡◌, ◌<◌, length, IfOk};
ghost use Rattle.supply_net.specs.Feeders.{AreAbove, AreFeeders, IsTop};

use pw_defs::{List, Memory, Supply};

/// The end of the feeders of a supply. It takes no memory; `Memory` would be answered for feeders without an end.
pub(crate) fn top_of(
    supplies: &List<Supply>,
    above: &mut Vec<u32>,
    supply: u32,
) -> Result<u32, Memory>
    requires feeders { AreFeeders supplies.now }
    requires above { AreAbove supplies.now above.old.items }
    requires there { supply < length supplies.now }
    ensures above { AreAbove supplies.now above.new.items }
    ensures top { IfOk result (IsTop supplies.now supply) }
{
    let mut at = supply;
    for step in 0..supplies.len() {
        let next = above.as_slice()[at as usize];
        if next == at {
            return Ok(at);
        }
        let further = above.as_slice()[next as usize];
        above[at as usize] = further;
        at = further;
    }
    Err(Memory)
}
