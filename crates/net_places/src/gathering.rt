//! The nets of one module after the other, gathered as its lines mention them.
ghost use Rattle.std.specs.Prelude.{◌≡◌, ◌==◌, ◌<◌, ◌∷◌, [], not, IfOk, length, set, slice_index};
ghost use Rattle.net_places.specs.Gathered.{Gathers, mention_by, no_net};

use crate::rows::{NamedRow, NetRow};
use module_rows::Modules;
use pw_defs::Memory;

/// The nets of a module, each once. A symbol that the module has mentioned bears its mark.
#[derive(Drop)]
pub(crate) struct Gathering<'a> {
    pub(crate) marks: Vec<u32>,
    pub(crate) nets: Vec<NamedRow<'a>>,
}

/// The mark of a symbol.
fn mark_at(marks: &[u32], symbol: u32) -> u32
    ensures { result ≡ slice_index marks.now symbol }
{
    match marks.get(symbol as usize) {
        Some(mark) => *mark,
        None => 0,
    }
}

/// Marks a symbol.
fn set_mark(marks: &mut Vec<u32>, symbol: u32, mark: u32)
    ensures { marks.new.items ≡ set marks.old.items symbol mark }
{
    if (symbol as usize) < marks.len() {
        marks[symbol as usize] = mark;
    }
}

/// Marks a symbol, and says whether it did not bear the mark before.
fn is_new(marks: &mut Vec<u32>, symbol: u32, mark: u32) -> bool
    ensures new { result ≡ not (slice_index marks.old.items symbol == mark) }
    ensures marks { marks.new.items ≡ set marks.old.items symbol mark }
{
    let known = mark_at(marks.as_slice(), symbol) == mark;
    set_mark(marks, symbol, mark);
    !known
}

/// A net, which counts where its name was not mentioned before.
pub(crate) fn mention_net<'a>(
    modules: &'a Modules,
    mark: u32,
    row: NetRow,
    gathering: &mut Gathering<'a>,
) -> Result<(), Memory>
    requires { row.name < length modules.now.symbols }
    ensures { IfOk result (λ _. Gathers modules.now.symbols mark gathering.old gathering.new (mention_by modules.now.symbols row ∷ [])) }
{
    if !is_new(&mut gathering.marks, row.name, mark) {
        return Ok(());
    }
    let name = modules.spelling(row.name);
    gathering.nets.push(NamedRow { name, row })?;
    Ok(())
}

/// The name of an instance, which is no net from then on.
pub(crate) fn mention_inst(modules: &Modules, mark: u32, symbol: u32, gathering: &mut Gathering)
    requires { symbol < length modules.now.symbols }
    ensures { Gathers modules.now.symbols mark gathering.old gathering.new (no_net modules.now.symbols symbol ∷ []) }
{
    set_mark(&mut gathering.marks, symbol, mark);
}
