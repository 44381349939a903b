//! The rows that runs of bits make beside the bits of a port, or beside one another.
ghost use Rattle.std.specs.Prelude.{◌≡◌, ◌+◌, ◌<◌, ◌≤◌, ◌++◌, IfOk, MatchOption, length, drop};
ghost use Rattle.pw_defs.specs.declared.cells.Dir.TheVariants.{Input, Output};
ghost use Rattle.net_links.specs.declared.rows.LinkEnd.TheVariants.{Own, Child};
ghost use Rattle.net_links.specs.declared.rows.LinkRow.{LinkRow as Row};
ghost use Rattle.net_links.specs.LocalLinks.{links_of_row, locals};
ghost use Rattle.net_links.specs.RunLinks.{AreFew, AreFewOwn, IsEndIfNarrow, IsNarrow, bits_back, end_of_run, locals_of_port, locals_of_sides};
ghost use Rattle.net_runs.specs.Leaves.{runs_bits};
ghost use Rattle.net_runs.specs.LocalNumbers.{run_bits, count_of};

use crate::rows::{LinkEnd, LinkRow};
use net_runs::Run;
use pw_defs::{List, Memory};

/// A line that makes an instance: its number among those of the module, and its line in the text.
#[derive(Clone, Copy)]
pub(crate) struct InstLine {
    pub(crate) number: u32,
    pub(crate) line: u32,
}

/// A bit of the module, if its number has 32 bits.
fn own_end(bit: u64) -> Option<LinkEnd>
    ensures { IsEndIfNarrow (Own bit) result }
{
    match u32::try_from(bit) {
        Ok(bit) => Some(LinkEnd::Own(bit)),
        Err(_) => None,
    }
}

/// A bit of what a line makes, if its number has 32 bits.
fn child_end(line: u32, bit: u64) -> Option<LinkEnd>
    ensures { IsEndIfNarrow (Child line bit) result }
{
    match u32::try_from(bit) {
        Ok(bit) => Some(LinkEnd::Child { line, bit }),
        Err(_) => None,
    }
}

/// The end that a run begins with, if its number has 32 bits.
fn run_end(run: Run) -> Option<LinkEnd>
    ensures { IsEndIfNarrow (end_of_run run) result }
{
    match run {
        Run::Bits { first, .. } => own_end(first),
        Run::Constants { .. } => Some(LinkEnd::Constant),
    }
}

/// A row, if its numbers have 32 bits.
fn narrow_row(
    fed: Option<LinkEnd>,
    source: Option<LinkEnd>,
    count: u64,
    line: u32,
) -> Option<LinkRow>
    ensures { (row : Row) → IsEndIfNarrow row.fed fed → IsEndIfNarrow row.source source → row.count ≡ count → row.line ≡ line
        → MatchOption result (IsNarrow row → ⊥) (λ found. found ≡ row) }
{
    let count = u32::try_from(count).ok()?;
    Some(LinkRow {
        fed: fed?,
        source: source?,
        count,
        line,
    })
}

/// Adds a row. One whose numbers have more than 32 bits is left out.
fn put_row(
    fed: Option<LinkEnd>,
    source: Option<LinkEnd>,
    count: u64,
    line: u32,
    rows: &mut List<LinkRow>,
) -> Result<(), Memory>
    ensures { IfOk result (λ _. (row : Row) → IsEndIfNarrow row.fed fed → IsEndIfNarrow row.source source → row.count ≡ count → row.line ≡ line
        → (0 < count → IsNarrow row) → locals rows.new ≡ locals rows.old ++ links_of_row row) }
{
    match narrow_row(fed, source, count, line) {
        Some(row) => {
            rows.push(row)?;
            Ok(())
        }
        None => Ok(()),
    }
}

/// Adds the row of a run that is connected to an input, from one of its bits on.
fn put_in(inst: InstLine, bit: u64, run: Run, rows: &mut List<LinkRow>) -> Result<(), Memory>
    ensures { IfOk result (λ _. AreFew (run_bits run) → bit + count_of run ≤ 4294967295
        → locals rows.new ≡ locals rows.old ++ locals_of_port Input inst.number inst.line bit (run_bits run)) }
{
    put_row(
        child_end(inst.number, bit),
        run_end(run),
        run.count(),
        inst.line,
        rows,
    )?;
    Ok(())
}

/// Adds the row of a run that is connected to an output, from one of its bits on. Constants are fed by nothing.
fn put_out(inst: InstLine, bit: u64, run: Run, rows: &mut List<LinkRow>) -> Result<(), Memory>
    ensures { IfOk result (λ _. AreFew (run_bits run) → bit + count_of run ≤ 4294967295
        → locals rows.new ≡ locals rows.old ++ locals_of_port Output inst.number inst.line bit (run_bits run)) }
{
    match run {
        Run::Bits { first, count } => {
            put_row(
                own_end(first),
                child_end(inst.number, bit),
                count,
                inst.line,
                rows,
            )?;
            Ok(())
        }
        Run::Constants { .. } => Ok(()),
    }
}

/// Adds the rows of runs that are connected to an input, whose bits have numbers from one on.
pub(crate) fn put_inputs(
    inst: InstLine,
    first: u64,
    runs: &[Run],
    rows: &mut List<LinkRow>,
) -> Result<(), Memory>
    ensures { IfOk result (λ _. AreFew (runs_bits runs.now) → first + length (runs_bits runs.now) ≤ 4294967295
        → locals rows.new ≡ locals rows.old ++ locals_of_port Input inst.number inst.line first (runs_bits runs.now)) }
{
    let mut bit = first;
    for run in runs {
        put_in(inst, bit, *run, rows)?;
        bit = bit.saturating_add(run.count());
    }
    Ok(())
}

/// Adds the rows of runs that are connected to an output, whose bits have numbers from one on.
pub(crate) fn put_outputs(
    inst: InstLine,
    first: u64,
    runs: &[Run],
    rows: &mut List<LinkRow>,
) -> Result<(), Memory>
    ensures { IfOk result (λ _. AreFew (runs_bits runs.now) → first + length (runs_bits runs.now) ≤ 4294967295
        → locals rows.new ≡ locals rows.old ++ locals_of_port Output inst.number inst.line first (runs_bits runs.now)) }
{
    let mut bit = first;
    for run in runs {
        put_out(inst, bit, *run, rows)?;
        bit = bit.saturating_add(run.count());
    }
    Ok(())
}

/// Puts back what is behind some bits of a run, if anything is.
fn put_back(runs: &mut Vec<Run>, run: Run, used: u64) -> Result<(), Memory>
    ensures rest { IfOk result (λ _. AreFew (run_bits run) → used ≤ count_of run → bits_back runs.new.items ≡ drop used (run_bits run) ++ bits_back runs.old.items) }
    ensures one { IfOk result (λ _. length runs.new.items ≤ length runs.old.items + 1) }
    ensures none { IfOk result (λ _. used ≡ count_of run → length runs.new.items ≡ length runs.old.items) }
{
    match run {
        Run::Bits { first, count } => {
            if used < count {
                runs.push(Run::Bits {
                    first: first.saturating_add(used),
                    count: count - used,
                })?;
            }
            Ok(())
        }
        Run::Constants { count } => {
            if used < count {
                runs.push(Run::Constants {
                    count: count - used,
                })?;
            }
            Ok(())
        }
    }
}

/// Adds the row of the runs with which two sides begin, as far as both reach, and puts back what is behind.
fn put_across(
    left: &mut Vec<Run>,
    right: &mut Vec<Run>,
    fed: Run,
    source: Run,
    line: u32,
    rows: &mut List<LinkRow>,
) -> Result<(), Memory>
    ensures links { IfOk result (λ _. AreFewOwn (run_bits fed ++ bits_back left.old.items) → AreFew (run_bits source ++ bits_back right.old.items)
        → locals rows.new ++ locals_of_sides line (bits_back left.new.items) (bits_back right.new.items)
        ≡ locals rows.old ++ locals_of_sides line (run_bits fed ++ bits_back left.old.items) (run_bits source ++ bits_back right.old.items)) }
    ensures fed { IfOk result (λ _. AreFewOwn (run_bits fed ++ bits_back left.old.items) → AreFewOwn (bits_back left.new.items)) }
    ensures source { IfOk result (λ _. AreFewOwn (run_bits fed ++ bits_back left.old.items) → AreFew (run_bits source ++ bits_back right.old.items) → AreFew (bits_back right.new.items)) }
    ensures fewer { IfOk result (λ _. length left.new.items + length right.new.items ≤ length left.old.items + length right.old.items + 1) }
{
    let count = fed.count().min(source.count());
    put_row(run_end(fed), run_end(source), count, line, rows)?;
    put_back(left, fed, count)?;
    put_back(right, source, count)?;
    Ok(())
}

/// Adds the rows of the two sides of an assignment. The runs of both are given from the last one on, and taken away.
pub(crate) fn put_sides(
    left: &mut Vec<Run>,
    right: &mut Vec<Run>,
    line: u32,
    rows: &mut List<LinkRow>,
) -> Result<(), Memory>
    ensures { IfOk result (λ _. AreFewOwn (bits_back left.old.items) → AreFew (bits_back right.old.items)
        → locals rows.new ≡ locals rows.old ++ locals_of_sides line (bits_back left.old.items) (bits_back right.old.items)) }
{
    for _ in 0..left.len() + right.len() {
        let Some(fed) = left.pop() else {
            return Ok(());
        };
        let Some(source) = right.pop() else {
            return Ok(());
        };
        put_across(left, right, fed, source, line, rows)?;
    }
    Ok(())
}
