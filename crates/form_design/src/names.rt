//! The names of the files, to find things by.
ghost use Rattle.std.specs.Prelude.{◌≡◌, [], length, slice_get, MatchOption};
ghost use Rattle.list_defs.specs.Members.{place_of, same_name};
ghost use Rattle.form_design.specs.Names.{Table, body_named, ports_of, dirs_of, bits_of, list_at};

use name_index::NameIndex;
use pw_defs::{Body, Dir, List};
use std::marker::Model;

/// The names of the cells, modules, pins, ports and nets of the files, with the directions of pins and ports.
#[derive(Drop)]
pub(crate) struct Names {
    cells: NameIndex,
    modules: NameIndex,
    pins: Vec<NameIndex>,
    ports: Vec<NameIndex>,
    nets: Vec<NameIndex>,
    pin_dirs: Vec<List<Dir>>,
    port_dirs: Vec<List<Dir>>,
}

impl Model for Names {
    ghost use Rattle.form_design.specs.Names.{Table};

    ghost Value = { Table };

    ghost view = { λ n. record {
      cells = n.cells;
      modules = n.modules;
      pins = n.pins.items;
      ports = n.ports.items;
      nets = n.nets.items;
      pin_dirs = n.pin_dirs.items;
      port_dirs = n.port_dirs.items;
    } };
}

impl Names {
    pub(crate) fn new(
        cells: NameIndex,
        modules: NameIndex,
        pins: Vec<NameIndex>,
        ports: Vec<NameIndex>,
        nets: Vec<NameIndex>,
        pin_dirs: Vec<List<Dir>>,
        port_dirs: Vec<List<Dir>>,
    ) -> Names
        ensures { result ≡ record {
          cells = cells;
          modules = modules;
          pins = pins.items;
          ports = ports.items;
          nets = nets.items;
          pin_dirs = pin_dirs.items;
          port_dirs = port_dirs.items;
        } }
    {
        Names {
            cells,
            modules,
            pins,
            ports,
            nets,
            pin_dirs,
            port_dirs,
        }
    }

    /// What the type of an instance stands for.
    pub(crate) fn body_named(&self, kind: &[u8]) -> Option<Body>
        ensures { result ≡ body_named self.now kind.now }
    {
        match self.cells.find(kind) {
            Some(cell) => Some(Body::Cell(cell)),
            None => {
                let module = self.modules.find(kind)?;
                Some(Body::Module(module))
            }
        }
    }

    /// The number of a module.
    pub(crate) fn module_place(&self, name: &[u8]) -> Option<u32>
        ensures { result ≡ place_of (same_name name.now) self.now.modules }
    {
        self.modules.find(name)
    }

    /// The place of a port or pin among those of a module or cell.
    pub(crate) fn port_place(&self, body: Body, port: &[u8]) -> Option<u32>
        ensures { result ≡ place_of (same_name port.now) (ports_of self.now body) }
    {
        match body {
            Body::Cell(cell) => place_at(self.pins.as_slice(), cell, port),
            Body::Module(module) => place_at(self.ports.as_slice(), module, port),
            Body::Model(_) => None,
        }
    }

    /// The names of the bits of an instance: the pins of a cell, or the nets of a module.
    pub(crate) fn bit_names(&self, body: Body) -> Option<&NameIndex>
        ensures { MatchOption result (bits_of self.now body ≡ []) (λ names. names.now ≡ bits_of self.now body) }
    {
        match body {
            Body::Cell(cell) => index_at(self.pins.as_slice(), cell),
            Body::Module(holder) => index_at(self.nets.as_slice(), holder),
            Body::Model(_) => None,
        }
    }

    /// How many bits an instance has.
    pub(crate) fn bit_count(&self, body: Body) -> u32
        ensures { result ≡ length (bits_of self.now body) }
    {
        match self.bit_names(body) {
            Some(names) => names.len(),
            None => 0,
        }
    }

    /// How many ports or pins a module or cell has.
    pub(crate) fn port_count(&self, body: Body) -> u32
        ensures { result ≡ length (ports_of self.now body) }
    {
        match body {
            Body::Cell(cell) => count_at(self.pins.as_slice(), cell),
            Body::Module(holder) => count_at(self.ports.as_slice(), holder),
            Body::Model(_) => 0,
        }
    }

    /// The direction of a port or pin.
    pub(crate) fn dir(&self, body: Body, place: u32) -> Option<Dir>
        ensures { result ≡ slice_get (dirs_of self.now body) place }
    {
        match body {
            Body::Cell(cell) => dir_at(self.pin_dirs.as_slice(), cell, place),
            Body::Module(holder) => dir_at(self.port_dirs.as_slice(), holder, place),
            Body::Model(_) => None,
        }
    }

    /// The place of a net among those of a module.
    pub(crate) fn net_place(&self, holder: u32, net: &[u8]) -> Option<u32>
        ensures { result ≡ place_of (same_name net.now) (list_at self.now.nets holder) }
    {
        place_at(self.nets.as_slice(), holder, net)
    }
}

/// The place of a name in one of the indices.
fn place_at(indices: &[NameIndex], at: u32, name: &[u8]) -> Option<u32>
    ensures { result ≡ place_of (same_name name.now) (list_at indices.now at) }
{
    let index = indices.get(at as usize)?;
    index.find(name)
}

fn index_at(indices: &[NameIndex], at: u32) -> Option<&NameIndex>
    ensures { MatchOption result (list_at indices.now at ≡ []) (λ names. names.now ≡ list_at indices.now at) }
{
    indices.get(at as usize)
}

fn count_at(indices: &[NameIndex], at: u32) -> u32
    ensures { result ≡ length (list_at indices.now at) }
{
    match index_at(indices, at) {
        Some(names) => names.len(),
        None => 0,
    }
}

fn dir_at(dirs: &[List<Dir>], at: u32, place: u32) -> Option<Dir>
    ensures { result ≡ slice_get (list_at dirs.now at) place }
{
    let dirs = dirs.get(at as usize)?;
    let dir = dirs.get(place)?;
    Some(*dir)
}
