//! The items of a module, one at a time.
ghost use Rattle.std.specs.Prelude.{◌≡◌, ◌<◌, ◌≤◌, ◌++◌, OnOk, length, map};
ghost use Rattle.std.specs.List.{flat_map};
ghost use Rattle.text_defs.specs.Phrases.{many};
ghost use Rattle.text_defs.specs.Tokens.{of_class};
ghost use Rattle.net_text.specs.CommaLists.{named_view};
ghost use Rattle.net_text.specs.DeclarationViews.{declaration_view};
ghost use Rattle.net_text.specs.ItemViews.{item_view};
ghost use Rattle.net_text.specs.NetlistClasses.{begins_item};
ghost use Rattle.net_text.specs.NetlistGrammar.{Instance, item, most};
ghost use Rattle.net_text.specs.SecondDeclarations.{item_declarations};
ghost use Rattle.net_modules.specs.Drafts.{with_assigns, with_item, with_items};
ghost use Rattle.net_modules.specs.Readings.{Took};

use module_rows::Builder;
use net_text::{DeclarationAt, ItemAt, NameAt, Tokens, add_item, item};
use pw_defs::{Assign, Conn, Inst, List, Name};
use std::alloc::{AllocError, Global};
use text_streams::Stop;

/// Adds assignments to the module that is open.
fn add_assigns(builder: &mut Builder, assigns: &[Assign]) -> Result<(), AllocError>
    ensures { OnOk result (builder.new ≡ with_assigns builder.old assigns.now) }
{
    for assign in assigns {
        builder.add_assign(assign)?;
    }
    Ok(())
}

/// Adds an instance to the module that is open.
fn add_inst(
    alloc: Global,
    builder: &mut Builder,
    kind: NameAt<'_>,
    name: NameAt<'_>,
    conns: List<Conn>,
) -> Result<(), AllocError>
    ensures { OnOk result (builder.new ≡ with_item builder.old (Instance (record { kind = named_view kind.entry; name = named_view name.entry; conns = conns }))) }
{
    let inst = Inst {
        kind: Name::from_slice(alloc, kind.text)?,
        name: Name::from_slice(alloc, name.text)?,
        conns,
        line: kind.line,
    };
    builder.add_inst(&inst)?;
    Ok(())
}

/// Adds what an item holds to the module that is open.
fn add_content(alloc: Global, builder: &mut Builder, item: ItemAt<'_>) -> Result<(), AllocError>
    ensures { OnOk result (builder.new ≡ with_item builder.old (item_view item.entry)) }
{
    match item {
        ItemAt::Directions { .. } => Ok(()),
        ItemAt::Wires { .. } => Ok(()),
        ItemAt::Assigns(assigns) => {
            add_assigns(builder, assigns.as_slice())?;
            Ok(())
        }
        ItemAt::Instance { kind, name, conns } => {
            add_inst(alloc, builder, kind, name, conns)?;
            Ok(())
        }
    }
}

/// The next item of a module, which is added to the module that is open; what it declares is added to `all`.
fn next_item<'a>(
    alloc: Global,
    tokens: &mut Tokens<'a>,
    builder: &mut Builder,
    all: &mut List<DeclarationAt<'a>>,
) -> Result<(), Stop>
    ensures took { Took (λ _ x. (builder.new ≡ with_item builder.old x) × (map declaration_view all.new ≡ map declaration_view all.old ++ item_declarations x)) item tokens.old result tokens.new }
    ensures shorter { OnOk result (length tokens.new < length tokens.old) }
{
    let item = item(alloc, tokens)?;
    add_item(&item, all)?;
    add_content(alloc, builder, item)?;
    Ok(())
}

/// The items of a module, which are added to the module that is open; what they declare is added to `all`.
pub fn module_items<'a>(
    alloc: Global,
    tokens: &mut Tokens<'a>,
    builder: &mut Builder,
    all: &mut List<DeclarationAt<'a>>,
) -> Result<(), Stop>
    ensures took { Took (λ _ items. (builder.new ≡ with_items builder.old items) × (map declaration_view all.new ≡ map declaration_view all.old ++ flat_map item_declarations items)) (many most (of_class begins_item) item) tokens.old result tokens.new }
    ensures longer { OnOk result (length tokens.new ≤ length tokens.old) }
{
    let mut count: u32 = 0;
    while tokens.is_item_next() {
        if count == u32::MAX {
            return Err(Stop::Memory);
        }
        next_item(alloc, tokens, builder, all)?;
        count += 1;
    }
    Ok(())
}
