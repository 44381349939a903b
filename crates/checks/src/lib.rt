//! The check of a design against its power intent: each chain is judged in all legal states.
#![tactic(auto)]

ghost use Rattle.std.specs.Prelude.{◌≡◌, ◌≢◌, ◌≤◌, [], true, length, All, IfOk, IfErr};
ghost use Rattle.std.specs.List.{AllByRecursion};
ghost use Rattle.pw_defs.specs.Values.{value_cmp};
ghost use Rattle.list_defs.specs.Orders.{IsRising};
ghost use Rattle.design_defs.specs.Walks.{WalksEnd};
ghost use Rattle.supply_defs.specs.Conditions.{speaks_below};
ghost use Rattle.supply_defs.specs.States.{state_count};
ghost use Rattle.checks.specs.LineFindings.{IsReport, lists_of, conds_of, legal_of};
ghost use Rattle.signoff_defs.specs.ReportText.{HasWholeWitness};
ghost use Rattle.checks.specs.Checked.{AreLegal, ListCause, CheckCause};

mod chain_ends;
mod copies;
mod judge;
mod laws;
mod report;

pub use laws::one_report;
use pw_defs::{CheckFault, Design, Intent, List, ListFault, Memory, Report, State};
use std::alloc::Global;

/// Judges each chain of a design in all legal states of its intent.
///
/// `Bound` comes where the supplies have more than 65,536 states, legal or not, `NoLegal` where they haven't and no
/// state is legal, and `Memory` where memory runs out.
pub fn check(alloc: Global, design: &Design, intent: &Intent) -> Result<Report, CheckFault>
    // The feeders lead to bits that there are, and none comes back to its bit.
    requires walks { WalksEnd design.now.bits }
    // Each supply has its values in rising order, and the conditions speak of supplies that there are.
    requires lists { length intent.now.lists ≡ length intent.now.supplies }
    requires rising { All (IsRising value_cmp) (lists_of intent.now) }
    requires speaks { All (λ cond. speaks_below (length (lists_of intent.now)) cond ≡ true) (conds_of intent.now) }

    ensures report { IfOk result (λ report. IsReport design.now intent.now report) }
    ensures whole { IfOk result (λ report. AllByRecursion (HasWholeWitness report.visible) report.findings) }
    // There is a report where some state is legal and there aren't too many.
    ensures few { IfOk result (λ report. state_count (lists_of intent.now) ≤ 65536) }
    ensures some { IfOk result (λ report. legal_of intent.now ≢ []) }
    ensures cause { IfErr result (λ fault. CheckCause intent.now fault) }
{
    let states = match legal_of(alloc, intent) {
        Ok(states) => states,
        Err(ListFault::Bound) => return Err(CheckFault::Bound),
        Err(ListFault::Memory) => return Err(CheckFault::Memory),
    };
    if states.is_empty() {
        return Err(CheckFault::NoLegal);
    }
    Ok(report_of(alloc, design, intent, states.as_slice())?)
}

/// The legal states of an intent.
fn legal_of(alloc: Global, intent: &Intent) -> Result<List<State>, ListFault>
    requires lists { length intent.now.lists ≡ length intent.now.supplies }
    requires rising { All (IsRising value_cmp) (lists_of intent.now) }
    requires speaks { All (λ cond. speaks_below (length (lists_of intent.now)) cond ≡ true) (conds_of intent.now) }
    ensures legal { IfOk result (λ states. AreLegal intent.now states) }
    ensures cause { IfErr result (λ fault. ListCause intent.now fault) }
{
    let lists = copies::lists_of(alloc, intent)?;
    let conds = copies::conds_of(alloc, intent)?;
    state_lists::legal(alloc, lists.as_slice(), conds.as_slice())
}

/// The report on a design in the legal states of its intent.
fn report_of(
    alloc: Global,
    design: &Design,
    intent: &Intent,
    states: &[State],
) -> Result<Report, Memory>
    requires walks { WalksEnd design.now.bits }
    requires legal { AreLegal intent.now states.now }
    ensures report { IfOk result (λ report. IsReport design.now intent.now report) }
    ensures whole { IfOk result (λ report. AllByRecursion (HasWholeWitness report.visible) report.findings) }
{
    let walks = chains::walks(alloc, design)?;
    let chains = chain_ends::chain_ends(alloc, design, walks.as_slice())?;
    let found = judge::findings_of(alloc, design, intent, states, chains.as_slice())?;
    Ok(Report {
        top: report::top_name(alloc, design)?,
        chains: chains.len(),
        passed: report::passed(intent.units.as_slice()),
        boundaries: List::new(alloc),
        visible: copies::visible_of(alloc, intent)?,
        findings: report::in_order(found)?,
    })
}
