//! The modules of a netlist, one behind the other.
ghost use Rattle.std.specs.Prelude.{◌≡◌, ◌<◌, ◌≤◌, OnOk, length};
ghost use Rattle.std.specs.Option.{option_map};
ghost use Rattle.net_text.specs.CommaLists.{named_view};
ghost use Rattle.net_text.specs.NetlistGrammar.{module_words, netlist};
ghost use Rattle.module_rows.specs.Growth.{no_module};
ghost use Rattle.net_modules.specs.Drafts.{IsEnded, IsReadWhole};
ghost use Rattle.net_modules.specs.Readings.{Took, TookWhole};
ghost use Rattle.net_modules.specs.Sayings.{first_of};

use crate::ends::end_module;
use crate::items::module_items;
use module_rows::Builder;
use net_text::{NameAt, NetClass, Tokens, add_header, header, name};
use pw_defs::List;
use std::alloc::Global;
use text_streams::Stop;

/// What was read of a netlist: the first declaration that its module cannot have, and how many modules there are.
#[derive(Clone, Copy)]
pub struct NetlistRead<'a> {
    pub second: Option<NameAt<'a>>,
    pub count: u32,
}

/// The next module, which is added to the whole ones; or the first declaration that it cannot have.
#[tactic(auto, unfolding(text_defs::specs::Grammar::read))]
fn next_module<'a>(
    alloc: Global,
    tokens: &mut Tokens<'a>,
    builder: &mut Builder,
) -> Result<Option<NameAt<'a>>, Stop>
    ensures took { Took (λ found words. IsEnded builder.old builder.new (option_map named_view found) words) module_words tokens.old result tokens.new }
    ensures shorter { OnOk result (length tokens.new < length tokens.old) }
{
    let first = tokens.one(NetClass::Module)?;
    let name = name(tokens)?;
    let header = header(alloc, tokens)?;
    tokens.one(NetClass::Semicolon)?;
    let mut all = List::new(alloc);
    add_header(&header, &mut all)?;
    module_items(alloc, tokens, builder, &mut all)?;
    tokens.one(NetClass::Endmodule)?;
    let refused = end_module(alloc, builder, name.text, first.line, all.as_slice())?;
    Ok(refused)
}

/// The first of two that is there.
fn first_of<'a>(first: Option<NameAt<'a>>, second: Option<NameAt<'a>>) -> Option<NameAt<'a>>
    ensures { option_map named_view result ≡ first_of (option_map named_view first.entry) (option_map named_view second.entry) }
{
    match first {
        None => second,
        Some(name) => Some(name),
    }
}

/// All modules of a netlist, which are added to the whole ones; or the first declaration that its module cannot have.
fn modules<'a>(
    alloc: Global,
    tokens: &mut Tokens<'a>,
    builder: &mut Builder,
) -> Result<NetlistRead<'a>, Stop>
    requires { builder.old.current ≡ no_module }
    ensures { Took (λ read words. IsReadWhole builder.old.modules words builder.new (option_map named_view read.second) read.count) netlist tokens.old result tokens.new }
{
    let mut second = None;
    let mut count: u32 = 0;
    while tokens.is_next(NetClass::Module) {
        if count == u32::MAX {
            return Err(Stop::Memory);
        }
        let refused = next_module(alloc, tokens, builder)?;
        second = first_of(second, refused);
        count += 1;
    }
    Ok(NetlistRead { second, count })
}

/// The modules of a netlist, behind which nothing stands, added to the whole ones.
pub fn whole_netlist<'a>(
    alloc: Global,
    tokens: &mut Tokens<'a>,
    builder: &mut Builder,
) -> Result<NetlistRead<'a>, Stop>
    requires { builder.old.current ≡ no_module }
    ensures { TookWhole (λ read words. IsReadWhole builder.old.modules words builder.new (option_map named_view read.second) read.count) netlist tokens.old result tokens.new }
{
    let whole = modules(alloc, tokens, builder)?;
    if tokens.peek().is_some() {
        return Err(Stop::Fault);
    }
    Ok(whole)
}
