//! The text of a report.
#![tactic(auto)]

ghost use Rattle.std.specs.Prelude.{◌≡◌, ◌∷◌, ◌++◌, length, All, IfOk, OnOk, Some, codes};
ghost use Rattle.std.specs.List.{flat_map, zip};
ghost use Rattle.text_defs.specs.Text.{value_text};
ghost use Rattle.signoff_defs.specs.ReportText.{HasWholeWitness, boundary_text, count_text, finding_line, finding_text, forced_text, kind_text, report_text, supplies_text, values_text, witness_text};

use itoa::Buffer;
use pw_defs::{Boundary, Bytes, Finding, Kind, Memory, Name, Report, State, Value};
use pw_lex::volts_text;
use std::alloc::{AllocError, Global};

/// The text of a report, which ends with a newline. `Memory` comes where memory runs out, and for a text that
/// `Bytes` can't hold.
#[tactic(auto, unfolding(signoff_defs::specs::ReportText::report_text))]
pub fn report_text(alloc: Global, report: &Report) -> Result<Bytes, Memory>
    requires { All (HasWholeWitness report.now.visible) report.now.findings }
    ensures { IfOk result (λ text. text ≡ report_text report.now) }
{
    let mut text = Bytes::new(alloc);
    text.put(b"upfsign report 1\ntop ")?;
    text.put(report.top.as_slice())?;
    text.put(b"\n")?;
    put_count(&mut text, b"chains", report.chains)?;
    put_count(&mut text, b"passed", report.passed)?;
    put_boundaries(&mut text, report.boundaries.as_slice())?;
    let findings = report.findings.as_slice();
    put_findings(&mut text, report.visible.as_slice(), findings)?;
    put_count(&mut text, b"findings", report.findings.len())?;
    Ok(text)
}

/// A line of a word and a number.
fn put_count(text: &mut Bytes, word: &[u8], count: u32) -> Result<(), AllocError>
    ensures { OnOk result (text.new ≡ text.old ++ count_text word.now count) }
{
    let mut buffer = Buffer::new();
    text.put(word)?;
    text.put(b" ")?;
    text.put(buffer.format(count).as_bytes())?;
    text.put(b"\n")
}

fn put_boundaries(text: &mut Bytes, boundaries: &[Boundary]) -> Result<(), AllocError>
    ensures { OnOk result (text.new ≡ text.old ++ flat_map boundary_text boundaries.now) }
{
    for boundary in boundaries {
        put_boundary(text, boundary)?;
    }
    Ok(())
}

fn put_boundary(text: &mut Bytes, boundary: &Boundary) -> Result<(), AllocError>
    ensures { OnOk result (text.new ≡ text.old ++ boundary_text boundary.now) }
{
    text.put(b"boundary ")?;
    text.put(boundary.inst.as_slice())?;
    text.put(b" ")?;
    text.put(boundary.port.as_slice())?;
    put_values(text, boundary.values.as_slice())?;
    text.put(b"\n")
}

fn put_values(text: &mut Bytes, values: &[Value]) -> Result<(), AllocError>
    ensures { OnOk result (text.new ≡ text.old ++ values_text values.now) }
{
    for value in values {
        text.put(b" ")?;
        put_value(text, *value)?;
    }
    Ok(())
}

fn put_findings(text: &mut Bytes, visible: &[Name], findings: &[Finding]) -> Result<(), AllocError>
    requires { All (HasWholeWitness visible.now) findings.now }
    ensures { OnOk result (text.new ≡ text.old ++ flat_map (finding_text visible.now) findings.now) }
{
    for finding in findings {
        put_finding(text, visible, finding)?;
    }
    Ok(())
}

/// The line of a finding, and that of its state.
fn put_finding(text: &mut Bytes, visible: &[Name], finding: &Finding) -> Result<(), AllocError>
    requires { HasWholeWitness visible.now finding.now }
    ensures { OnOk result (text.new ≡ text.old ++ finding_text visible.now finding.now) }
{
    put_finding_line(text, finding)?;
    match &finding.witness {
        Some(state) => put_state(text, visible, state),
        None => Ok(()),
    }
}

fn put_finding_line(text: &mut Bytes, finding: &Finding) -> Result<(), AllocError>
    ensures { OnOk result (text.new ≡ text.old ++ finding_line finding.now) }
{
    text.put(kind_text(finding.kind))?;
    text.put(b" ")?;
    text.put(finding.receiver.as_slice())?;
    text.put(b" from ")?;
    text.put(finding.driver.as_slice())?;
    text.put(forced_text(finding.forced))?;
    text.put(b"\n")
}

/// The line of a state, which has a value for each visible supply.
fn put_state(text: &mut Bytes, visible: &[Name], state: &State) -> Result<(), AllocError>
    requires { length state.now.values ≡ length visible.now }
    ensures { OnOk result (text.new ≡ text.old ++ witness_text visible.now (Some state.now)) }
{
    text.put(b"  state")?;
    put_supplies(text, visible, state.values.as_slice())?;
    text.put(b"\n")
}

fn put_supplies(text: &mut Bytes, names: &[Name], values: &[Value]) -> Result<(), AllocError>
    requires { length values.now ≡ length names.now }
    ensures { OnOk result (text.new ≡ text.old ++ supplies_text (zip names.now values.now)) }
{
    for (at, name) in names.iter().enumerate() {
        text.put(b" ")?;
        text.put(name.as_slice())?;
        text.put(b"=")?;
        put_value(text, values[at])?;
    }
    Ok(())
}

fn kind_text(kind: Kind) -> &'static [u8]
    ensures { result.now ≡ kind_text kind }
{
    match kind {
        Kind::IsoMissing => b"ISO_MISSING",
        Kind::IsoRedundant => b"ISO_REDUNDANT",
        Kind::IsoSupply => b"ISO_SUPPLY",
        Kind::IsoIntent => b"ISO_INTENT",
        Kind::LsMissing => b"LS_MISSING",
        Kind::LsRedundant => b"LS_REDUNDANT",
        Kind::LsSupply => b"LS_SUPPLY",
        Kind::LsIntent => b"LS_INTENT",
        Kind::Tie => b"TIE",
    }
}

fn forced_text(forced: bool) -> &'static [u8]
    ensures { result.now ≡ forced_text forced }
{
    if forced { b" forced" } else { b"" }
}

fn put_value(text: &mut Bytes, value: Value) -> Result<(), AllocError>
    ensures { OnOk result (text.new ≡ text.old ++ value_text value) }
{
    match value {
        Value::Off => text.put(b"off"),
        Value::On(microvolts) => match volts_text(microvolts, text) {
            Ok(()) => Ok(()),
            Err(Memory) => Err(AllocError),
        },
    }
}
