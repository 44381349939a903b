//! Plain modules, without what is in them, that are copied from rows.
ghost use Rattle.std.specs.Prelude.{◌≡◌, ◌<◌, IfOk, length, map};
ghost use Rattle.std.specs.List.{All};
ghost use Rattle.design_defs.specs.Designs.{head_of};
ghost use Rattle.module_rows.specs.Sound.{AreRows, IsModuleRow, IsPortRow};
ghost use Rattle.module_rows.specs.View.{module_of, name_at, netlist_of, port_of};

use crate::tables::{ModuleRow, PortRow, Rows};
use pw_defs::{List, Memory, Module, Name, Port};
use std::alloc::Global;

impl Rows {
    /// A copy of a name.
    fn spelled(&self, alloc: Global, symbol: u32) -> Result<Name, Memory>
        requires { symbol < length self.now.terms.symbols }
        ensures { IfOk result (λ name. name ≡ name_at self.now.terms.symbols symbol) }
    {
        let name = Name::from_slice(alloc, self.terms.symbols.name(symbol))?;
        Ok(name)
    }

    fn plain_port(&self, alloc: Global, row: PortRow) -> Result<Port, Memory>
        requires { IsPortRow self.now.terms row }
        ensures { IfOk result (λ port. port ≡ port_of self.now.terms row) }
    {
        let name = self.spelled(alloc, row.name)?;
        Ok(Port {
            name,
            dir: row.dir,
            range: row.range,
        })
    }

    fn plain_ports(&self, alloc: Global, rows: &[PortRow]) -> Result<List<Port>, Memory>
        requires { All (IsPortRow self.now.terms) rows.now }
        ensures { IfOk result (λ ports. ports ≡ map (port_of self.now.terms) rows.now) }
    {
        let mut ports = List::new(alloc);
        for row in rows {
            let port = self.plain_port(alloc, *row)?;
            ports.push(port)?;
        }
        Ok(ports)
    }

    /// The name, the ports and the line of a module.
    fn head(&self, alloc: Global, row: ModuleRow) -> Result<Module, Memory>
        requires rows { AreRows self.now }
        requires fits { IsModuleRow self.now row }
        ensures { IfOk result (λ head. head ≡ head_of (module_of self.now row)) }
    {
        let name = self.spelled(alloc, row.name)?;
        let rows = &self.ports.as_slice()[row.first.ports as usize..row.end.ports as usize];
        let ports = self.plain_ports(alloc, rows)?;
        Ok(Module {
            name,
            ports,
            nets: List::new(alloc),
            assigns: List::new(alloc),
            insts: List::new(alloc),
            line: row.line,
        })
    }

    fn heads_in(&self, alloc: Global, rows: &[ModuleRow]) -> Result<List<Module>, Memory>
        requires rows { AreRows self.now }
        requires fit { All (IsModuleRow self.now) rows.now }
        ensures { IfOk result (λ heads. heads ≡ map (λ row. head_of (module_of self.now row)) rows.now) }
    {
        let mut heads = List::new(alloc);
        for row in rows {
            let head = self.head(alloc, *row)?;
            heads.push(head)?;
        }
        Ok(heads)
    }

    /// The name, the ports and the line of each module.
    pub fn heads(&self, alloc: Global) -> Result<List<Module>, Memory>
        requires { AreRows self.now }
        ensures { IfOk result (λ heads. heads ≡ map head_of (netlist_of self.now).modules) }
    {
        self.heads_in(alloc, self.modules.as_slice())
    }
}
