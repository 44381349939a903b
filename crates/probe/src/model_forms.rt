//! Whether models are well-formed, of those that keep nothing but what feeds their outputs: no supplies, no sets of states
//! and no walks into the macro. `Models` of `design_defs` says what a well-formed model is.
ghost use Rattle.std.specs.Prelude.{◌≡◌, [], ℕ, List, IfOk, IsTrue, map};
ghost use Rattle.std.specs.List.{list_all};
ghost use Rattle.design_defs.specs.Inputs.{AllDiffer};
ghost use Rattle.design_defs.specs.Models.{AreOpenWalks, HasWellFormedFields, IsModelPort, IsOutputWalk, IsRange, IsWord, bit_of_walk, input_bits, is_word_byte};
ghost use Rattle.list_defs.specs.Members.{IsIn};
ghost use Rattle.pw_defs.specs.declared.model.Model.{Model as AnyModel};
ghost use Rattle.pw_defs.specs.declared.chains.Partial.{Partial as AnyWalk};
ghost use Rattle.pw_defs.specs.declared.netlist.Port.{Port as AnyPort};
ghost use Rattle.text_designs.specs.Texts.{AreReadModels};

use crate::model_bits::{bits_of, index_of};
use name_index::NameIndex;
use pw_defs::{Bytes, Element, List, Memory, Model, Name, Partial, Port};
use std::alloc::Global;

/// Whether all bytes are those of words.
fn are_word_bytes(text: &[u8]) -> bool
    ensures { result ≡ list_all is_word_byte text.now }
{
    for byte in text {
        if *byte < 33 || *byte > 126 {
            return false;
        }
    }
    true
}

/// Whether a text is a word.
fn is_word(text: &[u8]) -> bool
    ensures { IsTrue result → IsWord text.now }
{
    !text.is_empty() && are_word_bytes(text)
}

/// Whether the ends of a range are such as models write.
fn is_range(range: Option<(u32, u32)>) -> bool
    ensures { IsTrue result → IsRange range }
{
    match range {
        Some((left, right)) => left <= 65535 && right <= 65535,
        None => true,
    }
}

/// Whether a port is such as models write.
fn is_port(port: &Port) -> bool
    ensures { IsTrue result → IsModelPort port.now }
{
    is_word(port.name.as_slice()) && is_range(port.range)
}

/// Whether all ports are such as models write.
fn are_ports(ports: &[Port]) -> bool
    ensures { IsTrue result → (p : AnyPort) → IsIn p ports.now → IsModelPort p }
{
    for port in ports {
        if !is_port(port) {
            return false;
        }
    }
    true
}

/// Whether a name is in an index.
fn has(names: &NameIndex, name: &[u8]) -> bool
    ensures { IsTrue result → IsIn name.now names.now }
{
    names.find(name).is_some()
}

/// Whether a walk begins at one of the inputs, without a face or a cell on its way.
fn is_straight(from: &Name, elements: &List<Element>, inputs: &NameIndex) -> bool
    ensures start { IsTrue result → IsIn from.now inputs.now }
    ensures way { IsTrue result → elements.now ≡ [] }
{
    elements.is_empty() && has(inputs, from.as_slice())
}

/// Whether a walk ends at an output bit, and is quiet or comes straight from one of the inputs.
fn is_walk(bit: &[u8], walk: &Partial, inputs: &NameIndex) -> bool
    ensures bit { IsTrue result → bit_of_walk walk.now ≡ bit.now }
    ensures walk { IsTrue result → (ports : List AnyPort) → ((name : List ℕ) → IsIn name inputs.now → IsIn name (input_bits ports))
        → IsOutputWalk ports 0 walk.now }
{
    match walk {
        Partial::Quiet { bit: end } => end.as_slice() == bit,
        Partial::Feed {
            bit: end,
            from,
            elements,
        } => end.as_slice() == bit && is_straight(from, elements, inputs),
        _ => false,
    }
}

/// Whether there is one such walk from each output bit, in the order of these.
fn have_walks(bits: &[Bytes], walks: &[Partial], inputs: &NameIndex) -> bool
    ensures bits { IsTrue result → map bit_of_walk walks.now ≡ bits.now }
    ensures walks { IsTrue result → (ports : List AnyPort) → ((name : List ℕ) → IsIn name inputs.now → IsIn name (input_bits ports))
        → (w : AnyWalk) → IsIn w walks.now → IsOutputWalk ports 0 w }
{
    if bits.len() != walks.len() {
        return false;
    }
    for at in 0..walks.len() {
        if !is_walk(bits[at].as_slice(), &walks[at], inputs) {
            return false;
        }
    }
    true
}

/// Whether walks are those of ports: from each output bit one, and none into the macro.
fn are_walks(alloc: Global, ports: &[Port], walks: &[Partial]) -> Result<bool, Memory>
    ensures { IfOk result (λ right. IsTrue right → AreOpenWalks ports.now 0 walks.now) }
{
    let names = bits_of(alloc, ports)?;
    let inputs = index_of(alloc, names.inputs.as_slice())?;
    Ok(have_walks(names.outputs.as_slice(), walks, &inputs))
}

/// Whether a model has neither supplies nor sets of states: there is one state, which is legal, and no chain is watched.
fn is_bare(model: &Model) -> bool
    ensures supplies { IsTrue result → model.now.supplies ≡ [] }
    ensures outs { IsTrue result → model.now.outs ≡ [] }
    ensures exports { IsTrue result → model.now.exports ≡ [] }
    ensures watches { IsTrue result → model.now.watches ≡ [] }
    ensures arities { IsTrue result → model.now.kept.arities ≡ [] }
    ensures nodes { IsTrue result → model.now.kept.nodes ≡ [] }
    ensures legal { IsTrue result → model.now.legal ≡ 1 }
{
    model.supplies.is_empty()
        && model.outs.is_empty()
        && model.exports.is_empty()
        && model.watches.is_empty()
        && model.kept.arities.is_empty()
        && model.kept.nodes.is_empty()
        && model.legal == 1
}

/// Whether a model is a well-formed one, and bare.
fn is_well_formed(alloc: Global, model: &Model) -> Result<bool, Memory>
    ensures { IfOk result (λ right. IsTrue right → HasWellFormedFields model.now) }
{
    if !is_bare(model) || !is_word(model.module.as_slice()) || !are_ports(model.ports.as_slice()) {
        return Ok(false);
    }
    let right = are_walks(alloc, model.ports.as_slice(), model.partials.as_slice())?;
    Ok(right)
}

/// Whether all models are such ones.
fn are_well_formed(alloc: Global, models: &[Model]) -> Result<bool, Memory>
    ensures { IfOk result (λ right. IsTrue right → (m : AnyModel) → IsIn m models.now → HasWellFormedFields m) }
{
    for model in models {
        if !is_well_formed(alloc, model)? {
            return Ok(false);
        }
    }
    Ok(true)
}

/// Whether no two models are of modules of one name.
fn have_own_names(alloc: Global, models: &[Model]) -> Result<bool, Memory>
    ensures { IfOk result (λ right. IsTrue right → AllDiffer (map (λ (m : AnyModel). m.module) models.now)) }
{
    let mut names = Vec::new(alloc);
    for model in models {
        names.push(model.module.as_slice())?;
    }
    let index = NameIndex::from_names(alloc, names.as_slice())?;
    Ok(index.is_some())
}

/// Whether models are such as their texts give, one at most for each module. Only bare ones are known to be well-formed.
pub fn are_read(alloc: Global, models: &List<Model>) -> Result<bool, Memory>
    ensures { IfOk result (λ right. IsTrue right → AreReadModels models.now) }
{
    if !have_own_names(alloc, models.as_slice())? {
        return Ok(false);
    }
    let right = are_well_formed(alloc, models.as_slice())?;
    Ok(right)
}
