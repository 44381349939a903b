//! What contracts see in place of a lookup.

use module_rows::Netlist;
use net_places::Plans;

/// What a lookup is seen as: the modules, the nets of each, and the number of the module that is open.
#[derive(Drop)]
pub struct Opened {
    pub netlist: Netlist,
    pub plans: Plans,
    pub holder: u32,
}
