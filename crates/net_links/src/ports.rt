//! The ports of what instances are of.
ghost use Rattle.std.specs.Prelude.{◌≡◌, ◌<◌, [], None, Some, length, option_and_then, slice_index_or};
ghost use Rattle.pw_defs.specs.declared.design.Body.{Body as PlainBody};
ghost use Rattle.pw_defs.specs.declared.design.Body.TheVariants.{Module as ModuleBody, Cell as CellBody, Model as ModelBody};
ghost use Rattle.pw_defs.specs.declared.netlist.Port.{Port as PlainPort};
ghost use Rattle.design_defs.specs.Bits.{port_named};
ghost use Rattle.design_defs.specs.Hierarchy.{Sources, ports_in};
ghost use Rattle.design_defs.specs.Ports.{ports_among};
ghost use Rattle.module_rows.specs.View.{name_at};
ghost use Rattle.net_links.specs.Adding.{AreSourcesOf, IsPlaced, dir_among};

use module_rows::Modules;
use net_places::{Plans, Spellings};
use net_runs::{Lookup, net_of};
use pw_defs::{Body, Cells, Dir, List, Model};

/// What the links of modules are made from: the modules, cells and models, the types of the instances of each module, the
/// plans of all bodies, and the nets of the module that is open.
#[derive(Drop)]
pub(crate) struct Linker<'a> {
    pub(crate) spellings: Spellings<'a>,
    pub(crate) types: &'a List<List<Option<Body>>>,
    pub(crate) plans: &'a Plans,
    pub(crate) lookup: Lookup<'a>,
}

/// A port: its direction, and the number of its first bit among those of what it is a port of.
#[derive(Clone, Copy)]
pub(crate) struct PortPlace {
    pub(crate) dir: Dir,
    pub(crate) first: u64,
}

/// The direction of a port of a module.
fn module_dir(modules: &Modules, holder: u32, port: u32) -> Option<Dir>
    ensures { result ≡ dir_among (ports_among modules.now.modules (record { cells = [] }) [] (ModuleBody holder)) port }
{
    if holder < modules.len() && port < modules.module(holder).ports {
        Some(modules.port(holder, port).dir)
    } else {
        None
    }
}

/// The direction of a pin of a cell.
fn pin_dir(cells: &Cells, cell: u32, pin: u32) -> Option<Dir>
    ensures { result ≡ dir_among (ports_among [] cells.now [] (CellBody cell)) pin }
{
    let cell = cells.cells.get(cell)?;
    let pin = cell.pins.get(pin)?;
    Some(pin.dir)
}

/// The direction of a port of a model.
fn model_dir(models: &List<Model>, model: u32, port: u32) -> Option<Dir>
    ensures { result ≡ dir_among (ports_among [] (record { cells = [] }) models.now (ModelBody model)) port }
{
    let model = models.get(model)?;
    let port = model.ports.get(port)?;
    Some(port.dir)
}

/// The direction of a port of a body.
fn port_dir(spellings: &Spellings, body: Body, port: u32) -> Option<Dir>
    ensures { result ≡ dir_among (ports_among spellings.now.modules.now.modules spellings.now.cells.now spellings.now.models.now body) port }
{
    match body {
        Body::Module(number) => module_dir(spellings.modules, number, port),
        Body::Cell(number) => pin_dir(spellings.cells, number, port),
        Body::Model(number) => model_dir(spellings.models, number, port),
    }
}

/// The type of an instance, among those of a module.
fn type_among(types: &[Option<Body>], inst: u32) -> Option<Body>
    ensures { result ≡ slice_index_or types.now inst None }
{
    match types.get(inst as usize) {
        Some(body) => *body,
        None => None,
    }
}

/// The type of an instance.
fn type_at(types: &List<List<Option<Body>>>, holder: u32, inst: u32) -> Option<Body>
    ensures { result ≡ slice_index_or (slice_index_or types.now holder []) inst None }
{
    match types.as_slice().get(holder as usize) {
        Some(of_module) => type_among(of_module.as_slice(), inst),
        None => None,
    }
}

/// A port of a body, by its name.
fn port_in(linker: &Linker, body: Body, name: &[u8]) -> Option<PortPlace>
    ensures { (s : Sources) → AreSourcesOf linker.now s → (p : PlainPort) → option_and_then (port_named name.now) (ports_in s body) ≡ Some p
        → IsPlaced s body p result }
{
    let row = net_of(linker.plans, &linker.spellings, body, name)?;
    let Some(port) = row.port else {
        return None;
    };
    let dir = port_dir(&linker.spellings, body, port)?;
    Some(PortPlace {
        dir,
        first: row.first,
    })
}

/// A port of the type of an instance, by the symbol of its name.
pub(crate) fn port_at(linker: &Linker, holder: u32, inst: u32, symbol: u32) -> Option<PortPlace>
    requires { symbol < length linker.now.spellings.modules.now.symbols }
    ensures { (s : Sources) → AreSourcesOf linker.now s → (body : PlainBody) → (p : PlainPort)
        → slice_index_or (slice_index_or linker.now.types.now holder []) inst None ≡ Some body
        → option_and_then (port_named (name_at linker.now.spellings.modules.now.symbols symbol)) (ports_in s body) ≡ Some p
        → IsPlaced s body p result }
{
    let body = type_at(linker.types, holder, inst)?;
    port_in(linker, body, linker.spellings.modules.spelling(symbol))
}
