//! The modules of netlists, one behind the other.
ghost use Rattle.std.specs.Prelude.{◌≡◌, IfErr, IfOk};
ghost use Rattle.module_rows.specs.Growth.{no_module};
ghost use Rattle.net_text.specs.Stopped.{IsToldFault};
ghost use Rattle.text_designs.specs.Texts.{AreNetlists, AreNetlistsAtFault, ReadsMore};

use crate::faults::TextFault;
use module_rows::{Builder, Modules};
use net_modules::add_modules;
use pw_defs::{Bytes, List, NetFault};
use std::alloc::Global;

/// The modules of netlists in the order of their texts, and how many of them each text has.
#[derive(Drop)]
pub struct Netlists {
    pub modules: Modules,
    pub counts: List<u32>,
}

/// Adds the modules of one more netlist's text, and how many they are.
fn add_text(
    alloc: Global,
    text: &[u8],
    builder: &mut Builder,
    counts: &mut List<u32>,
) -> Result<(), NetFault>
    requires { builder.old.current ≡ no_module }
    ensures read { IfOk result (λ _. ReadsMore text.now builder.old builder.new counts.old counts.new) }
    ensures cause { IfErr result (IsToldFault text.now) }
{
    let count = add_modules(alloc, text, builder)?;
    match counts.push(count) {
        Ok(()) => Ok(()),
        Err(_) => Err(NetFault::Memory),
    }
}

/// The modules of netlists, one behind the other, and how many each text has.
///
/// Errors: the first fault of the first text that has one, or want of memory.
pub fn modules_of_texts(alloc: Global, netlists: &List<Bytes>) -> Result<Netlists, TextFault>
    ensures read { IfOk result (λ read. AreNetlists netlists.now read.modules.modules read.counts) }
    ensures cause { IfErr result (AreNetlistsAtFault netlists.now) }
{
    let mut builder = Builder::new(alloc);
    let mut counts = List::new(alloc);
    let mut number = 0;
    for text in netlists.as_slice() {
        match add_text(alloc, text.as_slice(), &mut builder, &mut counts) {
            Ok(()) => {}
            Err(fault) => {
                return Err(TextFault::Netlist {
                    text: number,
                    fault,
                });
            }
        }
        number += 1;
    }
    let modules = builder.finish();
    Ok(Netlists { modules, counts })
}
