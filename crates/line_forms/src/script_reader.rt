//! The reader of scripts.
ghost use Rattle.std.specs.Prelude.{◌≡◌, ◌<◌, ◌≤◌, ◌⊎◌, List, length, IfOk, Ok, Err};
ghost use Rattle.std.specs.List.{position_or_len};
ghost use Rattle.line_forms.specs.ScriptForm.{script_text, AreCommands};
ghost use Rattle.line_forms.specs.ScriptReading.{is_brace, value_at, state_at, states_at, supply_net_at, supply_state_at, ground_at, supply_set_at, element_at, elements_at, domain_at, command_at, script_at};
ghost use Rattle.line_forms.specs.Reading.{Gives, whole};
ghost use Rattle.line_forms.specs.declared.script_lines.CommandLine.{CommandLine};

use crate::fault::ReadFault;
use crate::script_lines::{CommandLine, StateWords};
use crate::text::{Form, behind, expect_word, name, read_all, read_more};
use crate::voltage::value_of;
use pw_defs::{List, Name, Value};
use std::alloc::Global;

/// The place of the brace that closes, or the length where there is none.
fn brace(text: &[u8]) -> usize
    ensures place { result ≡ position_or_len is_brace text.now }
    ensures within { result ≤ length text.now }
{
    text.iter().take_while(|byte| **byte != b'}').count()
}

/// The value of a state, as it is written and as what it says.
#[tactic(auto, unfolding(crate::specs::ScriptReading::value_at))]
fn value(alloc: Global, text: &[u8]) -> Result<((Name, Value), &[u8]), ReadFault>
    ensures { Gives (λ x. ((x.0.0, x.0.1), x.1.now)) result (value_at text.now) }
{
    let (word, rest) = text.split_at(brace(text));
    match value_of(word) {
        Some(value) => Ok(((Name::from_slice(alloc, word)?, value), rest)),
        None => Err(ReadFault::OtherForm),
    }
}

#[tactic(auto, unfolding(crate::specs::ScriptReading::state_at))]
fn state(alloc: Global, text: &[u8]) -> Result<(StateWords, &[u8]), ReadFault>
    ensures { Gives (λ x. (x.0, x.1.now)) result (state_at text.now) }
{
    let rest = expect_word(text, b" -state {")?;
    let (name, rest) = name(alloc, rest)?;
    let rest = expect_word(rest, b" ")?;
    let ((word, value), rest) = value(alloc, rest)?;
    let rest = expect_word(rest, b"}")?;
    Ok((StateWords { name, word, value }, rest))
}

impl Form for StateWords {
    ghost use Rattle.line_forms.specs.ScriptReading.{state_at, has_state};

    ghost read_at = { state_at };

    ghost goes_on = { has_state };

    fn follows(rest: &[u8]) -> bool {
        behind(rest, b" -state {").is_some()
    }

    fn read(alloc: Global, text: &[u8]) -> Result<(StateWords, &[u8]), ReadFault> {
        state(alloc, text)
    }
}

/// The states of a supply, at least one.
#[tactic(auto, unfolding(crate::specs::ScriptReading::states_at, crate::specs::Reading::some_at))]
fn states(alloc: Global, text: &[u8]) -> Result<(List<StateWords>, &[u8]), ReadFault>
    ensures { Gives (λ x. (x.0, x.1.now)) result (states_at text.now) }
{
    let mut states = List::new(alloc);
    let (first, rest) = state(alloc, text)?;
    states.push(first)?;
    read_more(alloc, states, rest)
}

#[tactic(auto, unfolding(crate::specs::ScriptReading::supply_net_at))]
fn supply_net(alloc: Global, text: &[u8]) -> Result<(CommandLine, &[u8]), ReadFault>
    ensures { Gives (λ x. (x.0, x.1.now)) result (supply_net_at text.now) }
{
    let (net, rest) = name(alloc, text)?;
    let rest = expect_word(rest, b"\n")?;
    Ok((CommandLine::SupplyNet { net }, rest))
}

#[tactic(auto, unfolding(crate::specs::ScriptReading::supply_state_at))]
fn supply_state(alloc: Global, text: &[u8]) -> Result<(CommandLine, &[u8]), ReadFault>
    ensures { Gives (λ x. (x.0, x.1.now)) result (supply_state_at text.now) }
{
    let (net, rest) = name(alloc, text)?;
    let (states, rest) = states(alloc, rest)?;
    let rest = expect_word(rest, b"\n")?;
    Ok((CommandLine::SupplyState { net, states }, rest))
}

/// The ground net of a supply set, where it is given one.
#[tactic(auto, unfolding(crate::specs::ScriptReading::ground_at))]
fn ground_net(alloc: Global, text: &[u8]) -> Result<(Option<Name>, &[u8]), ReadFault>
    ensures { Gives (λ x. (x.0, x.1.now)) result (ground_at text.now) }
{
    if let Some(rest) = behind(text, b" -function {ground ") {
        let (net, rest) = name(alloc, rest)?;
        let rest = expect_word(rest, b"}")?;
        return Ok((Some(net), rest));
    }
    Ok((None, text))
}

#[tactic(auto, unfolding(crate::specs::ScriptReading::supply_set_at))]
fn supply_set(alloc: Global, text: &[u8]) -> Result<(CommandLine, &[u8]), ReadFault>
    ensures { Gives (λ x. (x.0, x.1.now)) result (supply_set_at text.now) }
{
    let (set, rest) = name(alloc, text)?;
    let rest = expect_word(rest, b" -function {power ")?;
    let (power, rest) = name(alloc, rest)?;
    let rest = expect_word(rest, b"}")?;
    let (ground, rest) = ground_net(alloc, rest)?;
    let rest = expect_word(rest, b"\n")?;
    Ok((CommandLine::SupplySet { set, power, ground }, rest))
}

/// What a domain has: an instance, or the whole design, which is written as a point.
#[tactic(auto, unfolding(crate::specs::ScriptReading::element_at))]
fn element(alloc: Global, text: &[u8]) -> Result<(Option<Name>, &[u8]), ReadFault>
    ensures { Gives (λ x. (x.0, x.1.now)) result (element_at text.now) }
{
    if let Some(rest) = behind(text, b".") {
        return Ok((None, rest));
    }
    let (inst, rest) = name(alloc, text)?;
    Ok((Some(inst), rest))
}

/// The option that says what a domain has.
#[tactic(auto, unfolding(crate::specs::ScriptReading::elements_at))]
fn elements(alloc: Global, text: &[u8]) -> Result<(Option<Name>, &[u8]), ReadFault>
    ensures { Gives (λ x. (x.0, x.1.now)) result (elements_at text.now) }
{
    let rest = expect_word(text, b" -elements {")?;
    let (element, rest) = element(alloc, rest)?;
    let rest = expect_word(rest, b"}")?;
    Ok((element, rest))
}

#[tactic(auto, unfolding(crate::specs::ScriptReading::domain_at))]
fn domain(alloc: Global, text: &[u8]) -> Result<(CommandLine, &[u8]), ReadFault>
    ensures { Gives (λ x. (x.0, x.1.now)) result (domain_at text.now) }
{
    let (domain, rest) = name(alloc, text)?;
    let (element, rest) = elements(alloc, rest)?;
    let rest = expect_word(rest, b" -supply {primary ")?;
    let (primary, rest) = name(alloc, rest)?;
    let rest = expect_word(rest, b"}\n")?;
    Ok((
        CommandLine::Domain {
            domain,
            element,
            primary,
        },
        rest,
    ))
}

#[tactic(auto, unfolding(crate::specs::ScriptReading::command_at))]
fn command(alloc: Global, text: &[u8]) -> Result<(CommandLine, &[u8]), ReadFault>
    ensures { Gives (λ x. (x.0, x.1.now)) result (command_at text.now) }
{
    if let Some(rest) = behind(text, b"create_supply_net ") {
        supply_net(alloc, rest)
    } else if let Some(rest) = behind(text, b"add_supply_state ") {
        supply_state(alloc, rest)
    } else if let Some(rest) = behind(text, b"create_supply_set ") {
        supply_set(alloc, rest)
    } else {
        domain(alloc, expect_word(text, b"create_power_domain ")?)
    }
}

impl Form for CommandLine {
    ghost use Rattle.line_forms.specs.ScriptReading.{command_at};
    ghost use Rattle.line_forms.specs.Reading.{has_more};

    ghost read_at = { command_at };

    ghost goes_on = { has_more };

    fn follows(rest: &[u8]) -> bool {
        !rest.is_empty()
    }

    fn read(alloc: Global, text: &[u8]) -> Result<(CommandLine, &[u8]), ReadFault> {
        command(alloc, text)
    }
}

/// The commands of a script, up to the end of the text.
#[tactic(auto, unfolding(crate::specs::ScriptReading::script_at))]
fn script(alloc: Global, text: &[u8]) -> Result<List<CommandLine>, ReadFault>
    ensures { Gives (λ x. x) result (whole script_at text.now) }
{
    let (commands, _end) = read_all(alloc, text)?;
    Ok(commands)
}

/// The commands that the text is, where it is a script: each line as it is spelled, and nothing else.
pub fn read_script(alloc: Global, text: &[u8]) -> Result<List<CommandLine>, ReadFault>
    // What is read is spelled so, each byte of it.
    ensures found { IfOk result (λ x. AreCommands x × (text.now ≡ script_text x)) }

    // What is spelled so is read, unless memory runs out.
    ensures only { (x : List CommandLine) → AreCommands x → text.now ≡ script_text x
        → (result ≡ Ok x) ⊎ (result ≡ Err ReadFault.Memory) }
{
    script(alloc, text)
}
