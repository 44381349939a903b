//! The reader of netlists.
ghost use Rattle.std.specs.Prelude.{◌≡◌, ◌<◌, ◌⊎◌, List, length, IfOk, Ok, Err};
ghost use Rattle.line_forms.specs.NetlistForm.{netlist_text, AreModules};
ghost use Rattle.line_forms.specs.NetlistReading.{port_at, net_at, conn_at, inst_at, item_at, module_at, netlist_at};
ghost use Rattle.line_forms.specs.Reading.{Gives, whole};
ghost use Rattle.line_forms.specs.declared.netlist_lines.ModuleLines.{ModuleLines};

use crate::fault::ReadFault;
use crate::netlist_lines::{ConnWords, InstLine, ItemLine, ModuleLines, PortWords};
use crate::text::{Form, Listed, behind, direction, expect_word, plain_name, read_all, read_list};
use pw_defs::{List, Name};
use std::alloc::Global;

#[tactic(auto, unfolding(crate::specs::NetlistReading::port_at))]
fn port(alloc: Global, text: &[u8]) -> Result<(PortWords, &[u8]), ReadFault>
    ensures { Gives (λ x. (x.0, x.1.now)) result (port_at text.now) }
{
    let (dir, rest) = direction(text)?;
    let rest = expect_word(rest, b" ")?;
    let (name, rest) = plain_name(alloc, rest)?;
    Ok((PortWords { dir, name }, rest))
}

/// A further port of a list, behind a comma.
impl Form for PortWords {
    ghost use Rattle.line_forms.specs.NetlistReading.{port_at, comma_at, has_comma};

    ghost read_at = { comma_at port_at };

    ghost goes_on = { has_comma };

    fn follows(rest: &[u8]) -> bool {
        behind(rest, b", ").is_some()
    }

    fn read(alloc: Global, text: &[u8]) -> Result<(PortWords, &[u8]), ReadFault> {
        port(alloc, expect_word(text, b", ")?)
    }
}

impl Listed for PortWords {
    ghost use Rattle.line_forms.specs.NetlistReading.{port_at};

    ghost item_at = { port_at };

    fn read_item(alloc: Global, text: &[u8]) -> Result<(PortWords, &[u8]), ReadFault> {
        port(alloc, text)
    }
}

/// The net of a connection, and the parenthesis that closes.
#[tactic(auto, unfolding(crate::specs::NetlistReading::net_at))]
fn net(alloc: Global, text: &[u8]) -> Result<(Option<Name>, &[u8]), ReadFault>
    ensures { Gives (λ x. (x.0, x.1.now)) result (net_at text.now) }
{
    if let Some(rest) = behind(text, b")") {
        return Ok((None, rest));
    }
    let (name, rest) = plain_name(alloc, text)?;
    let rest = expect_word(rest, b")")?;
    Ok((Some(name), rest))
}

#[tactic(auto, unfolding(crate::specs::NetlistReading::conn_at))]
fn conn(alloc: Global, text: &[u8]) -> Result<(ConnWords, &[u8]), ReadFault>
    ensures { Gives (λ x. (x.0, x.1.now)) result (conn_at text.now) }
{
    let rest = expect_word(text, b".")?;
    let (port, rest) = plain_name(alloc, rest)?;
    let rest = expect_word(rest, b"(")?;
    let (net, rest) = net(alloc, rest)?;
    Ok((ConnWords { port, net }, rest))
}

/// A further connection of a list, behind a comma.
impl Form for ConnWords {
    ghost use Rattle.line_forms.specs.NetlistReading.{conn_at, comma_at, has_comma};

    ghost read_at = { comma_at conn_at };

    ghost goes_on = { has_comma };

    fn follows(rest: &[u8]) -> bool {
        behind(rest, b", ").is_some()
    }

    fn read(alloc: Global, text: &[u8]) -> Result<(ConnWords, &[u8]), ReadFault> {
        conn(alloc, expect_word(text, b", ")?)
    }
}

impl Listed for ConnWords {
    ghost use Rattle.line_forms.specs.NetlistReading.{conn_at};

    ghost item_at = { conn_at };

    fn read_item(alloc: Global, text: &[u8]) -> Result<(ConnWords, &[u8]), ReadFault> {
        conn(alloc, text)
    }
}

#[tactic(auto, unfolding(crate::specs::NetlistReading::inst_at, crate::specs::NetlistReading::conns_at))]
fn inst(alloc: Global, text: &[u8]) -> Result<(InstLine, &[u8]), ReadFault>
    ensures { Gives (λ x. (x.0, x.1.now)) result (inst_at text.now) }
{
    let (kind, rest) = plain_name(alloc, text)?;
    let rest = expect_word(rest, b" ")?;
    let (name, rest) = plain_name(alloc, rest)?;
    let rest = expect_word(rest, b"(")?;
    let (conns, rest) = read_list(alloc, rest)?;
    Ok((InstLine { kind, name, conns }, rest))
}

#[tactic(auto, unfolding(crate::specs::NetlistReading::item_at))]
fn item(alloc: Global, text: &[u8]) -> Result<(ItemLine, &[u8]), ReadFault>
    ensures { Gives (λ x. (x.0, x.1.now)) result (item_at text.now) }
{
    if let Some(rest) = behind(text, b"wire ") {
        let (net, rest) = plain_name(alloc, rest)?;
        let rest = expect_word(rest, b";\n")?;
        return Ok((ItemLine::Wire(net), rest));
    }
    let (inst, rest) = inst(alloc, text)?;
    Ok((ItemLine::Inst(inst), rest))
}

impl Form for ItemLine {
    ghost use Rattle.line_forms.specs.NetlistReading.{item_at, is_within};

    ghost read_at = { item_at };

    ghost goes_on = { is_within };

    fn follows(rest: &[u8]) -> bool {
        behind(rest, b"endmodule\n").is_none()
    }

    fn read(alloc: Global, text: &[u8]) -> Result<(ItemLine, &[u8]), ReadFault> {
        item(alloc, text)
    }
}

#[tactic(auto, unfolding(crate::specs::NetlistReading::module_at, crate::specs::NetlistReading::ports_at))]
fn module(alloc: Global, text: &[u8]) -> Result<(ModuleLines, &[u8]), ReadFault>
    ensures { Gives (λ x. (x.0, x.1.now)) result (module_at text.now) }
{
    let rest = expect_word(text, b"module ")?;
    let (name, rest) = plain_name(alloc, rest)?;
    let rest = expect_word(rest, b"(")?;
    let (ports, rest) = read_list(alloc, rest)?;
    let (items, rest) = read_all(alloc, rest)?;
    let rest = expect_word(rest, b"endmodule\n")?;
    Ok((ModuleLines { name, ports, items }, rest))
}

impl Form for ModuleLines {
    ghost use Rattle.line_forms.specs.NetlistReading.{module_at};
    ghost use Rattle.line_forms.specs.Reading.{has_more};

    ghost read_at = { module_at };

    ghost goes_on = { has_more };

    fn follows(rest: &[u8]) -> bool {
        !rest.is_empty()
    }

    fn read(alloc: Global, text: &[u8]) -> Result<(ModuleLines, &[u8]), ReadFault> {
        module(alloc, text)
    }
}

/// The modules of a netlist, up to the end of the text.
#[tactic(auto, unfolding(crate::specs::NetlistReading::netlist_at))]
fn netlist(alloc: Global, text: &[u8]) -> Result<List<ModuleLines>, ReadFault>
    ensures { Gives (λ x. x) result (whole netlist_at text.now) }
{
    let (modules, _end) = read_all(alloc, text)?;
    Ok(modules)
}

/// The modules that the text is, where it is a netlist: each line as it is spelled, and nothing else.
pub fn read_netlist(alloc: Global, text: &[u8]) -> Result<List<ModuleLines>, ReadFault>
    // What is read is spelled so, each byte of it.
    ensures found { IfOk result (λ x. AreModules x × (text.now ≡ netlist_text x)) }

    // What is spelled so is read, unless memory runs out.
    ensures only { (x : List ModuleLines) → AreModules x → text.now ≡ netlist_text x
        → (result ≡ Ok x) ⊎ (result ≡ Err ReadFault.Memory) }
{
    netlist(alloc, text)
}
