//! The net of a name among the nets of a body.
ghost use Rattle.std.specs.Prelude.{◌≡◌, ◌≤◌, [], length, option_map, slice_get};
ghost use Rattle.pw_defs.specs.declared.design.Body.TheVariants.{Cell as CellBody, Model as ModelBody};
ghost use Rattle.design_defs.specs.Hierarchy.{Sources, HasBody};
ghost use Rattle.design_defs.specs.Ports.{ports_among};
ghost use Rattle.net_places.specs.Finding.{is_before, is_same, names_among, row_before, row_name, IsRowNumber, IsSplit, PassesInFront};
ghost use Rattle.net_places.specs.Plans.{port_names, rows_at, ArePlans, IsOf};

use crate::plans::Plans;
use module_rows::Modules;
use pw_defs::{Body, Cells, List, Model};
use std::cmp::Ordering;

/// What the names of rows are spelled by: the symbols of modules, the pins of cells, and the ports of models.
#[derive(Drop)]
pub struct Spellings<'a> {
    pub modules: &'a Modules,
    pub cells: &'a Cells,
    pub models: &'a List<Model>,
}

/// How a symbol is spelled.
fn symbol_name(modules: &Modules, symbol: u32) -> Option<&[u8]>
    ensures { option_map (λ name. name.now) result ≡ slice_get modules.now.symbols symbol }
{
    if symbol < modules.symbols() {
        Some(modules.spelling(symbol))
    } else {
        None
    }
}

/// How a pin of a cell is spelled.
fn pin_name(cells: &Cells, cell: u32, pin: u32) -> Option<&[u8]>
    ensures { option_map (λ name. name.now) result ≡ slice_get (port_names (ports_among [] cells.now [] (CellBody cell))) pin }
{
    let cell = cells.cells.get(cell)?;
    let pin = cell.pins.get(pin)?;
    Some(pin.name.as_slice())
}

/// How a port of a model is spelled.
fn port_name(models: &List<Model>, model: u32, port: u32) -> Option<&[u8]>
    ensures { option_map (λ name. name.now) result ≡ slice_get (port_names (ports_among [] (record { cells = [] }) models.now (ModelBody model))) port }
{
    let model = models.get(model)?;
    let port = model.ports.get(port)?;
    Some(port.name.as_slice())
}

/// Whether a spelling is there and comes before a name.
fn comes_before(spelled: Option<&[u8]>, name: &[u8]) -> bool
    ensures { result ≡ is_before name.now (option_map (λ spelled. spelled.now) spelled.entry) }
{
    match spelled {
        Some(spelled) => match spelled.cmp(name) {
            Ordering::Less => true,
            Ordering::Equal | Ordering::Greater => false,
        },
        None => false,
    }
}

/// Whether a spelling is there and is a name.
fn is_spelled(spelled: Option<&[u8]>, name: &[u8]) -> bool
    ensures { result ≡ is_same name.now (option_map (λ spelled. spelled.now) spelled.entry) }
{
    match spelled {
        Some(spelled) => spelled == name,
        None => false,
    }
}

impl<'a> Spellings<'a> {
    /// How the name of a row of a body is spelled.
    fn spelling(&self, body: Body, name: u32) -> Option<&[u8]>
        ensures { option_map (λ name. name.now) result ≡ slice_get (names_among self.now.modules.now self.now.cells.now self.now.models.now body) name }
    {
        match body {
            Body::Module(_) => symbol_name(self.modules, name),
            Body::Cell(number) => pin_name(self.cells, number, name),
            Body::Model(number) => port_name(self.models, number, name),
        }
    }
}

impl Plans {
    /// How the name of a net of a body is spelled.
    fn spelled<'a>(&self, spellings: &'a Spellings, body: Body, net: u32) -> Option<&'a [u8]>
        ensures { option_map (λ name. name.now) result
            ≡ row_name (names_among spellings.now.modules.now spellings.now.cells.now spellings.now.models.now body) (rows_at self.now body) net }
    {
        let row = self.net(body, net)?;
        spellings.spelling(body, row.name)
    }

    /// How many nets of a body come before a name.
    fn before(&self, spellings: &Spellings, body: Body, name: &[u8]) -> u32
        ensures within { result ≤ length (rows_at self.now body) }
        ensures split { PassesInFront (row_before (names_among spellings.now.modules.now spellings.now.cells.now spellings.now.models.now body) (rows_at self.now body) name.now) (length (rows_at self.now body))
            → IsSplit (row_before (names_among spellings.now.modules.now spellings.now.cells.now spellings.now.models.now body) (rows_at self.now body) name.now) (length (rows_at self.now body)) result result }
    {
        let mut low = 0;
        let mut high = self.nets(body);
        while low < high {
            let middle = low + (high - low) / 2;
            if comes_before(self.spelled(spellings, body, middle), name) {
                low = middle + 1;
            } else {
                high = middle;
            }
        }
        low
    }

    /// The number of a net of a body, by its name, `None` where the body owns none of this name. Its names are looked at
    /// in halves.
    pub fn find(&self, spellings: &Spellings, body: Body, name: &[u8]) -> Option<u32>
        ensures { (s : Sources) → IsOf spellings.now.modules.now spellings.now.cells.now spellings.now.models.now s
            → ArePlans s spellings.now.modules.now.symbols self.now → HasBody s body
            → IsRowNumber s spellings.now.modules.now.symbols self.now body name.now result }
    {
        let net = self.before(spellings, body, name);
        if is_spelled(self.spelled(spellings, body, net), name) {
            Some(net)
        } else {
            None
        }
    }
}
