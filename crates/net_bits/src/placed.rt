//! What bits are found by.

use module_rows::Modules;
use net_instances::Instances;
use net_places::Plans;
use pw_defs::{Cells, List, Model};

/// Modules, cells and models, the rows of their nets, and all instances of a design.
#[derive(Clone, Copy)]
pub struct Placed<'a> {
    pub modules: &'a Modules,
    pub cells: &'a Cells,
    pub models: &'a List<Model>,
    pub plans: &'a Plans,
    pub instances: &'a Instances,
}
