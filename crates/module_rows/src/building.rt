//! Ports, wires, assignments and instances that are added to the module that is open, and modules that end.
ghost use Rattle.std.specs.Prelude.{◌≡◌, ◌∷◌, [], OnOk, OnErr, length, map, drop};
ghost use Rattle.std.specs.List.{All};
ghost use Rattle.module_rows.specs.Growth.{HasConns, no_module, with_assign, with_inst, with_module, with_net, with_port};
ghost use Rattle.module_rows.specs.Sound.{AreRows, AreTerms, IsConnRow};
ghost use Rattle.module_rows.specs.View.{conn_of, draft_of, marks_of};

use crate::tables::{AssignRow, ConnRow, InstRow, Marks, ModuleRow, NetRow, PortRow, Rows, Terms};
use crate::terms::{connected, number, symbol};
use name_index::NameIndex;
use pw_defs::{Assign, Conn, Inst, List, Net, Port};
use std::alloc::{AllocError, Global};

impl Rows {
    /// Rows of no modules.
    pub fn new(alloc: Global) -> Rows
        ensures rows { AreRows result }
        ensures draft { draft_of result ≡ record { modules = []; current = no_module } }
    {
        Rows {
            terms: Terms {
                symbols: NameIndex::new(alloc),
                exprs: List::new(alloc),
            },
            conns: List::new(alloc),
            ports: List::new(alloc),
            nets: List::new(alloc),
            assigns: List::new(alloc),
            insts: List::new(alloc),
            modules: List::new(alloc),
            current: Marks {
                ports: 0,
                nets: 0,
                assigns: 0,
                insts: 0,
            },
        }
    }

    /// How far the tables have come.
    fn marks(&self) -> Marks
        ensures { result ≡ marks_of self.now }
    {
        Marks {
            ports: self.ports.len(),
            nets: self.nets.len(),
            assigns: self.assigns.len(),
            insts: self.insts.len(),
        }
    }

    /// Adds a port to the module that is open.
    pub fn add_port(&mut self, port: &Port) -> Result<(), AllocError>
        requires { AreRows self.old }
        ensures rows { AreRows self.new }
        ensures ok { OnOk result (draft_of self.new ≡ with_port (draft_of self.old) port.now) }
        ensures err { OnErr result (draft_of self.new ≡ draft_of self.old) }
    {
        let name = symbol(&mut self.terms, port.name.as_slice())?;
        self.ports.push(PortRow {
            name,
            dir: port.dir,
            range: port.range,
        })?;
        Ok(())
    }

    /// Adds a declared wire to the module that is open.
    pub fn add_net(&mut self, net: &Net) -> Result<(), AllocError>
        requires { AreRows self.old }
        ensures rows { AreRows self.new }
        ensures ok { OnOk result (draft_of self.new ≡ with_net (draft_of self.old) net.now) }
        ensures err { OnErr result (draft_of self.new ≡ draft_of self.old) }
    {
        let name = symbol(&mut self.terms, net.name.as_slice())?;
        self.nets.push(NetRow {
            name,
            range: net.range,
        })?;
        Ok(())
    }

    /// Adds an assignment to the module that is open.
    pub fn add_assign(&mut self, assign: &Assign) -> Result<(), AllocError>
        requires { AreRows self.old }
        ensures rows { AreRows self.new }
        ensures ok { OnOk result (draft_of self.new ≡ with_assign (draft_of self.old) assign.now) }
        ensures err { OnErr result (draft_of self.new ≡ draft_of self.old) }
    {
        let left = number(&mut self.terms, &assign.left)?;
        let right = number(&mut self.terms, &assign.right)?;
        self.assigns.push(AssignRow {
            left,
            right,
            line: assign.line,
        })?;
        Ok(())
    }

    /// Adds an instance to the module that is open.
    pub fn add_inst(&mut self, inst: &Inst) -> Result<(), AllocError>
        requires { AreRows self.old }
        ensures rows { AreRows self.new }
        ensures ok { OnOk result (draft_of self.new ≡ with_inst (draft_of self.old) inst.now) }
        ensures err { OnErr result (draft_of self.new ≡ draft_of self.old) }
    {
        let kind = symbol(&mut self.terms, inst.kind.as_slice())?;
        let name = symbol(&mut self.terms, inst.name.as_slice())?;
        let conns_first = self.conns.len();
        put_conns(&mut self.terms, &mut self.conns, inst.conns.as_slice())?;
        let conns_end = self.conns.len();
        self.insts.push(InstRow {
            kind,
            name,
            line: inst.line,
            conns_first,
            conns_end,
        })?;
        Ok(())
    }

    /// Ends the module that is open with its name and its line.
    pub fn end_module(&mut self, name: &[u8], line: u32) -> Result<(), AllocError>
        requires { AreRows self.old }
        ensures rows { AreRows self.new }
        ensures ok { OnOk result (draft_of self.new ≡ with_module (draft_of self.old) name.now line) }
        ensures err { OnErr result (draft_of self.new ≡ draft_of self.old) }
    {
        let name = symbol(&mut self.terms, name)?;
        let end = self.marks();
        self.modules.push(ModuleRow {
            name,
            line,
            first: self.current,
            end,
        })?;
        self.current = end;
        Ok(())
    }
}

/// Adds connections one behind another.
fn put_conns(terms: &mut Terms, rows: &mut List<ConnRow>, conns: &[Conn]) -> Result<(), AllocError>
    requires terms { AreTerms terms.old }
    requires rows { All (IsConnRow terms.old) rows.old }
    ensures grown { HasConns terms.old rows.old terms.new rows.new }
    ensures ok { OnOk result (map (conn_of terms.new) (drop (length rows.old) rows.new) ≡ conns.now) }
{
    for conn in conns {
        put_conn(terms, rows, conn)?;
    }
    Ok(())
}

/// Adds a connection.
fn put_conn(terms: &mut Terms, rows: &mut List<ConnRow>, conn: &Conn) -> Result<(), AllocError>
    requires terms { AreTerms terms.old }
    requires rows { All (IsConnRow terms.old) rows.old }
    ensures grown { HasConns terms.old rows.old terms.new rows.new }
    ensures ok { OnOk result (map (conn_of terms.new) (drop (length rows.old) rows.new) ≡ conn.now ∷ []) }
{
    let port = symbol(terms, conn.port.as_slice())?;
    let expr = connected(terms, &conn.expr)?;
    rows.push(ConnRow { port, expr })?;
    Ok(())
}
