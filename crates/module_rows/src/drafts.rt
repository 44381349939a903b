//! Modules as a reader reads them.
ghost use Rattle.std.specs.Prelude.{◌≡◌, [], OnOk, OnErr};
ghost use Rattle.module_rows.specs.Growth.{no_module, with_assign, with_inst, with_module, with_net, with_port};

use crate::modules::Modules;
use crate::tables::Rows;
use pw_defs::{Assign, Inst, Net, Port};
use std::alloc::{AllocError, Global};
use std::marker::Model;

/// Modules that are whole and one that is open, seen as the plain modules. An error leaves them as they were.
#[derive(Drop)]
pub struct Builder {
    rows: Rows,
}

impl Model for Builder {
    ghost use Rattle.module_rows.specs.declared.plain.Draft.{Draft as PlainDraft};
    ghost use Rattle.std.specs.Coded.{codes};
    ghost use Rattle.pw_defs.specs.contracts.netlist.Expr as expr;

    ghost Value = { PlainDraft };

    ghost coded = { Prim.hlevel (codes, expr.the_row.coded) };

    ghost use Rattle.module_rows.specs.Sound.{AreRows};
    ghost use Rattle.module_rows.specs.View.{draft_of};

    ghost view = { λ b. draft_of b.rows };

    ghost invariant = { λ b. AreRows b.rows };
}

impl Builder {
    /// No modules, and nothing in the open one.
    pub fn new(alloc: Global) -> Builder
        ensures { result ≡ record { modules = []; current = no_module } }
    {
        Builder {
            rows: Rows::new(alloc),
        }
    }

    /// Adds a port to the module that is open.
    pub fn add_port(&mut self, port: &Port) -> Result<(), AllocError>
        ensures ok { OnOk result (self.new ≡ with_port self.old port.now) }
        ensures err { OnErr result (self.new ≡ self.old) }
    {
        self.rows.add_port(port)
    }

    /// Adds a declared wire to the module that is open.
    pub fn add_net(&mut self, net: &Net) -> Result<(), AllocError>
        ensures ok { OnOk result (self.new ≡ with_net self.old net.now) }
        ensures err { OnErr result (self.new ≡ self.old) }
    {
        self.rows.add_net(net)
    }

    /// Adds an assignment to the module that is open.
    pub fn add_assign(&mut self, assign: &Assign) -> Result<(), AllocError>
        ensures ok { OnOk result (self.new ≡ with_assign self.old assign.now) }
        ensures err { OnErr result (self.new ≡ self.old) }
    {
        self.rows.add_assign(assign)
    }

    /// Adds an instance to the module that is open.
    pub fn add_inst(&mut self, inst: &Inst) -> Result<(), AllocError>
        ensures ok { OnOk result (self.new ≡ with_inst self.old inst.now) }
        ensures err { OnErr result (self.new ≡ self.old) }
    {
        self.rows.add_inst(inst)
    }

    /// Ends the module that is open with its name and its line, and opens one without anything.
    pub fn end_module(&mut self, name: &[u8], line: u32) -> Result<(), AllocError>
        ensures ok { OnOk result (self.new ≡ with_module self.old name.now line) }
        ensures err { OnErr result (self.new ≡ self.old) }
    {
        self.rows.end_module(name, line)
    }

    /// The modules that are whole. What is open is left out.
    pub fn finish(self) -> Modules
        ensures { result.modules ≡ self.modules }
    {
        let Builder { rows } = self;
        Modules::new(rows)
    }
}
