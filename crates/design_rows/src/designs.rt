//! A sound design, stored in rows.
ghost use Rattle.std.specs.Prelude.{◌≡◌, ◌<◌, ◌++◌, Some, length, slice_get, IfOk, IfSome, MatchOption, OnOk};
ghost use Rattle.std.specs.List.{position};
ghost use Rattle.std.specs.Option.{option_and_then, option_map};
ghost use Rattle.design_defs.specs.Ports.{ports_of};
ghost use Rattle.design_defs.specs.Sound.{IsSoundDesign};
ghost use Rattle.design_defs.specs.Walks.{feeder_at, next_of};
ghost use Rattle.port_order.specs.PortNames.{has_name};
ghost use Rattle.design_rows.specs.Children.{HasNamesInside, HasNoneInside, IsNamedInside};
ghost use Rattle.design_rows.specs.Sound.{IsSound};
ghost use Rattle.design_rows.specs.View.{design_of};

use crate::tables::Rows;
use crate::{children, reads};
use port_order::PortOrder;
use pw_defs::{Body, Bytes, Cells, Feeder, List, Model as SoftMacro, Module, PortBit};
use std::alloc::AllocError;
use std::marker::Model;

/// A sound design, seen as the plain record of its instances and bits.
#[derive(Drop)]
pub struct Design {
    rows: Rows,
    ports: PortOrder,
}

impl Model for Design {
    ghost use Rattle.pw_defs.specs.declared.design.Design.{Design as PlainDesign};
    ghost use Rattle.std.specs.Coded.{codes};
    ghost use Rattle.pw_defs.specs.contracts.netlist.Expr as expr;

    ghost Value = { PlainDesign };

    ghost coded = { Prim.hlevel (codes, expr.the_row.coded) };

    ghost use Rattle.design_rows.specs.Sound.{AreStored};
    ghost use Rattle.design_rows.specs.View.{design_of};

    ghost view = { λ d. design_of d.rows };

    ghost invariant = { λ d. AreStored d.rows d.ports };
}

#[tactic(auto, using(crate::proofs::RowLemmas::reads), unfolding(crate::specs::View::bit_at, crate::specs::View::instance_at))]
impl Design {
    /// The design of rows that are sound. An error says that memory ended.
    pub fn new(rows: Rows) -> Result<Design, AllocError>
        requires { IsSound rows }
        ensures { IfOk result (λ design. design ≡ design_of rows) }
    {
        let ports = PortOrder::new(
            *rows.feeds.allocator(),
            &rows.modules,
            &rows.cells,
            &rows.models,
        )?;
        Ok(Design { rows, ports })
    }

    /// Every design of this type is sound.
    pub fn sound(&self)
        ensures { IsSoundDesign self.now }
    {
        let _ = &self.rows;
    }

    /// Whatever is inside an instance has a name there.
    pub fn names(&self)
        ensures { HasNamesInside self.now }
    {
        let _ = &self.rows;
    }

    /// The cells of the libraries.
    pub fn cells(&self) -> &Cells
        ensures { result.now ≡ self.now.cells }
    {
        &self.rows.cells
    }

    /// The modules of the netlist.
    pub fn modules(&self) -> &List<Module>
        ensures { result.now ≡ self.now.modules }
    {
        &self.rows.modules
    }

    /// The models of soft macros.
    pub fn models(&self) -> &List<SoftMacro>
        ensures { result.now ≡ self.now.models }
    {
        &self.rows.models
    }

    /// How many instances there are.
    pub fn len_insts(&self) -> u32
        ensures { result ≡ length self.now.insts }
    {
        self.rows.insts.len()
    }

    /// How many bits there are.
    pub fn len_bits(&self) -> u32
        ensures { result ≡ length self.now.bits }
    {
        self.rows.feeds.len() as u32
    }

    /// What an instance is an instance of.
    pub fn body(&self, n: u32) -> Body
        requires { n < length self.now.insts }
        ensures { option_map (λ i. i.body) (slice_get self.now.insts n) ≡ Some result }
    {
        let rows = &self.rows;
        reads::kind(rows, reads::instance(rows, n)).body
    }

    /// The first port or pin of an instance that has this name.
    pub fn port_named(&self, n: u32, name: &[u8]) -> Option<u32>
        requires { n < length self.now.insts }
        ensures { result ≡ option_and_then (position (has_name name.now)) (ports_of self.now n) }
    {
        let rows = &self.rows;
        self.ports.find(&rows.modules, &rows.cells, &rows.models, self.body(n), name)
    }

    /// What an instance is inside; the first, which is the top, is inside none.
    pub fn parent(&self, n: u32) -> Option<u32>
        requires { n < length self.now.insts }
        ensures { option_map (λ i. i.parent) (slice_get self.now.insts n) ≡ Some result }
    {
        reads::parent(&self.rows, n)
    }

    /// The instance that is inside another one and has this name there.
    pub fn child(&self, outer: u32, name: &[u8]) -> Option<u32>
        requires { outer < length self.now.insts }
        ensures { MatchOption result (HasNoneInside self.now outer name.now) (λ n. IsNamedInside self.now outer name.now n) }
    {
        children::child(&self.rows, outer, name)
    }

    /// Appends the path of an instance.
    pub fn put_path(&self, n: u32, out: &mut Bytes) -> Result<(), AllocError>
        requires { n < length self.now.insts }
        ensures { OnOk result (IfSome (slice_get self.now.insts n) (λ i. out.new ≡ out.old ++ i.path)) }
    {
        reads::put_path(&self.rows, n, out)
    }

    /// The instance that owns a bit.
    pub fn owner(&self, n: u32) -> u32
        requires { n < length self.now.bits }
        ensures { option_map (λ b. b.owner) (slice_get self.now.bits n) ≡ Some result }
    {
        reads::owner(&self.rows, n)
    }

    /// The port bit that a bit is, which is `None` at a bit of a net.
    pub fn port(&self, n: u32) -> Option<PortBit>
        requires { n < length self.now.bits }
        ensures { option_map (λ b. b.port) (slice_get self.now.bits n) ≡ Some result }
    {
        reads::port(&self.rows, n)
    }

    /// What feeds a bit.
    pub fn feeder(&self, n: u32) -> Feeder
        requires { n < length self.now.bits }
        ensures { feeder_at self.now.bits n ≡ Some result }
    {
        reads::feeder(&self.rows, n)
    }

    /// The bit at which a walk goes on behind a bit.
    pub fn next(&self, n: u32) -> Option<u32>
        requires { n < length self.now.bits }
        ensures { option_and_then next_of (feeder_at self.now.bits n) ≡ result }
    {
        reads::next(&self.rows, n)
    }

    /// Appends the name of a bit.
    pub fn put_bit_name(&self, n: u32, out: &mut Bytes) -> Result<(), AllocError>
        requires { n < length self.now.bits }
        ensures { OnOk result (IfSome (slice_get self.now.bits n) (λ b. out.new ≡ out.old ++ b.name)) }
    {
        reads::put_bit_name(&self.rows, n, out)
    }
}
