//! Whole texts: their modules, or their first fault.
ghost use Rattle.std.specs.Prelude.{◌≡◌, ◌+◌, OnOk, IfOk, IfErr, length};
ghost use Rattle.module_rows.specs.Growth.{no_module};
ghost use Rattle.net_text.specs.NetlistFaults.{ReadsAsModules};
ghost use Rattle.net_text.specs.Stopped.{IsToldFault};
ghost use Rattle.net_text.specs.CommaLists.{named_view};
ghost use Rattle.net_modules.specs.Drafts.{AreAdded};
ghost use Rattle.net_modules.specs.Readings.{IsNamedFault};

use crate::modules::whole_netlist;
use module_rows::{Builder, Modules};
use net_text::{NameAt, Tokens, fault_next};
use pw_defs::{At, Name, NetFault};
use std::alloc::Global;
use text_streams::Stop;

/// The fault of a text with a declaration that its module cannot have, or want of memory.
fn second_at(alloc: Global, second: NameAt<'_>) -> NetFault
    ensures { IsNamedFault (named_view second.entry) result }
{
    match Name::from_slice(alloc, second.text) {
        Err(_) => NetFault::Memory,
        Ok(name) => NetFault::N4(At {
            line: second.line,
            name,
        }),
    }
}

/// Adds the modules of a netlist's text behind those of the builder, which has no module open; so several texts are read
/// into one builder, one call each. The answer is how many they are. Or the text's first fault: where it cannot go on to a netlist, and then a name that
/// is declared where it cannot be; the builder is of no use then. Want of memory may come in place of any answer.
pub fn add_modules(alloc: Global, text: &[u8], builder: &mut Builder) -> Result<u32, NetFault>
    requires { builder.old.current ≡ no_module }
    ensures modules { OnOk result (AreAdded text.now builder.old builder.new) }
    ensures count { IfOk result (λ count. length builder.new.modules ≡ length builder.old.modules + count) }
    ensures fault { IfErr result (IsToldFault text.now) }
{
    let mut tokens = Tokens::new(text);
    match whole_netlist(alloc, &mut tokens, builder) {
        Ok(whole) => match whole.second {
            None => Ok(whole.count),
            Some(second) => Err(second_at(alloc, second)),
        },
        Err(Stop::Memory) => Err(NetFault::Memory),
        Err(Stop::Fault) => Err(fault_next(alloc, text, &tokens)),
    }
}

/// The modules of a netlist's text. Or its first fault: where it cannot go on to a netlist, and then a name that is
/// declared where it cannot be. Want of memory may come in place of any answer.
pub fn read_modules(alloc: Global, text: &[u8]) -> Result<Modules, NetFault>
    ensures modules { IfOk result (λ read. ReadsAsModules text.now read.modules) }
    ensures fault { IfErr result (IsToldFault text.now) }
{
    let mut builder = Builder::new(alloc);
    add_modules(alloc, text, &mut builder)?;
    Ok(builder.finish())
}
