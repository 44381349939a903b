//! The report's parts: the name of the top, the count of passed-over lines, and the findings in order.
ghost use Rattle.std.specs.Prelude.{◌≡◌, IfOk, OnOk, min, sum_by};
ghost use Rattle.list_defs.specs.Orders.{IsPutInOrder};
ghost use Rattle.pw_defs.specs.Kinds.{kind_number};
ghost use Rattle.checks.specs.LineFindings.{finding_cmp, module_name, top_name};

use pw_defs::{Body, Design, Finding, Kind, List, Memory, Name, Unit};
use std::alloc::Global;
use std::cmp::Ordering;

/// Where a kind stands among the kinds.
fn kind_number(kind: Kind) -> u8
    ensures { result ≡ kind_number kind }
{
    match kind {
        Kind::IsoMissing => 0,
        Kind::IsoRedundant => 1,
        Kind::IsoSupply => 2,
        Kind::IsoIntent => 3,
        Kind::LsMissing => 4,
        Kind::LsRedundant => 5,
        Kind::LsSupply => 6,
        Kind::LsIntent => 7,
        Kind::Tie => 8,
    }
}

/// How two findings stand: by receiver name, then by kind.
fn compare(left: &Finding, right: &Finding) -> Ordering
    ensures { result ≡ finding_cmp left.now right.now }
{
    let kinds = kind_number(left.kind).cmp(&kind_number(right.kind));
    left.receiver
        .as_slice()
        .cmp(right.receiver.as_slice())
        .then(kinds)
}

/// Puts findings in order.
fn sort(findings: &mut Vec<Finding>) -> Result<(), Memory>
    ensures { OnOk result (IsPutInOrder finding_cmp findings.old.items findings.new.items) }
{
    findings.sort_by(|left, right| compare(left, right))?;
    Ok(())
}

/// The findings in order.
pub(crate) fn in_order(mut findings: Vec<Finding>) -> Result<List<Finding>, Memory>
    ensures { IfOk result (λ sorted. IsPutInOrder finding_cmp findings.items sorted) }
{
    sort(&mut findings)?;
    List::from_vec(findings).ok_or(Memory)
}

/// The name of the module that a body is an instance of.
fn module_name(alloc: Global, design: &Design, body: Body) -> Result<Name, Memory>
    ensures { IfOk result (λ name. name ≡ module_name design.now (Some body)) }
{
    if let Body::Module(module) = body {
        if let Some(module) = design.modules.get(module) {
            return Ok(module.name.clone()?);
        }
    }
    Ok(Name::from_slice(alloc, &[])?)
}

/// The name of the module of the top.
pub(crate) fn top_name(alloc: Global, design: &Design) -> Result<Name, Memory>
    ensures { IfOk result (λ name. name ≡ top_name design.now) }
{
    match design.insts.get(0) {
        Some(top) => module_name(alloc, design, top.body),
        None => Ok(Name::from_slice(alloc, &[])?),
    }
}

/// How many lines were passed over, which stays at the largest number that there is room for.
pub(crate) fn passed(units: &[Unit]) -> u32
    ensures { result ≡ min (sum_by (λ u. u.passed) units.now) 4294967295 }
{
    let mut count: u32 = 0;
    for unit in units {
        count = count.saturating_add(unit.passed);
    }
    count
}
