//! Power switches: what speaks against one, and the supplies that it makes. It meets `specs/Switches`.
//!
//! Names are looked up in indexes, so that a switch takes about as long as its text.
ghost use Rattle.std.specs.Prelude.{◌≡◌, ◌≢◌, ◌||◌, true, false, not, is_some, ◌+◌, ◌<◌, ◌∷◌, ◌++◌, [], ℕ, List, None, Some, length, map, IfOk, IfErr, OnOk};
ghost use Rattle.std.specs.List.{list_any};
ghost use Rattle.list_defs.specs.Members.{IsIn, same_name};
ghost use Rattle.pw_defs.specs.declared.supplies.SwitchText.{SwitchText as Text};
ghost use Rattle.supply_defs.specs.Network.{IsUnfed};
ghost use Rattle.supply_net.specs.Names.{scoped};
ghost use Rattle.supply_net.specs.Networks.{Network, with_supply};
ghost use Rattle.supply_net.specs.Parts.{network_of};
ghost use Rattle.supply_net.specs.Switches.{IsAbsentInput, IsFirstTaken, IsSoundSwitch, IsSwitchFault, MakesSwitch, absent_input, first_taken, input_names, input_of, named_inputs, output_of, port_names, switch_port, taken_name, with_inputs, with_link, with_switch, with_switch_name};

use crate::names::{Object, scoped};
use crate::network::{Supplies, feeder_of, taken};
use name_index::NameIndex;
use pw_defs::{List, Memory, Name, Supply, SupplyFault, SupplyKind, SwitchText};
use std::alloc::Global;

/// The name of a switch's port.
fn port_name(alloc: Global, switch: &Name, port: &Name) -> Result<Name, Memory>
    ensures { IfOk result (λ name. name ≡ switch_port switch.now port.now) }
{
    let mut bytes = Vec::from_slice(alloc, switch.as_slice())?;
    bytes.push(b'/')?;
    bytes.extend_from_slice(port.as_slice())?;
    let name = Name::from_vec(bytes).ok_or(Memory)?;
    Ok(name)
}

/// The names of a switch and of its ports, its own first.
fn all_names(alloc: Global, switch: &SwitchText) -> Result<List<Name>, Memory>
    ensures { IfOk result (λ names. names ≡ switch.now.name ∷ port_names switch.now) }
{
    let mut names = List::new(alloc);
    names.push(Name::from_slice(alloc, switch.name.as_slice())?)?;
    names.push(port_name(alloc, &switch.name, &switch.output.0)?)?;
    for input in switch.inputs.as_slice() {
        names.push(port_name(alloc, &switch.name, &input.0)?)?;
    }
    Ok(names)
}

/// The names of inputs, to be found again.
fn index_of_inputs(alloc: Global, inputs: &List<(Name, u32)>) -> Result<NameIndex, Memory>
    ensures { IfOk result (λ index. (name : List ℕ) → list_any (same_name name) index ≡ list_any (same_name name) (input_names inputs.now)) }
{
    let mut index = NameIndex::new(alloc);
    for input in inputs.as_slice() {
        index.number(input.0.as_slice())?;
    }
    Ok(index)
}

/// Names, to be found again.
fn index_of_names(alloc: Global, names: &List<Name>) -> Result<NameIndex, Memory>
    ensures { IfOk result (λ index. (name : List ℕ) → list_any (same_name name) index ≡ list_any (same_name name) names.now) }
{
    let mut index = NameIndex::new(alloc);
    for name in names.as_slice() {
        index.number(name.as_slice())?;
    }
    Ok(index)
}

/// The refusal of a name that no input has.
fn unknown(alloc: Global, name: &Name) -> SupplyFault
    ensures { (t : Text) → absent_input t ≡ Some name.now → IsAbsentInput t result }
{
    match Name::from_slice(alloc, name.as_slice()) {
        Ok(name) => SupplyFault::U7(name),
        Err(_) => SupplyFault::Memory,
    }
}

/// `U7` where an on state names no input.
fn check_inputs(alloc: Global, switch: &SwitchText) -> Result<(), SupplyFault>
    ensures ok { OnOk result (absent_input switch.now ≡ None) }
    ensures fault { IfErr result (IsAbsentInput switch.now) }
{
    let index = index_of_inputs(alloc, &switch.inputs)?;
    for name in switch.on.as_slice() {
        if index.find(name.as_slice()).is_none() {
            return Err(unknown(alloc, name));
        }
    }
    Ok(())
}

/// The numbers of the inputs that an on state names, where the first has this number.
fn named_inputs(alloc: Global, switch: &SwitchText, first: u32) -> Result<List<u32>, Memory>
    ensures { IfOk result (λ numbers. numbers ≡ named_inputs switch.now.on first switch.now.inputs) }
{
    let on = index_of_names(alloc, &switch.on)?;
    let mut numbers = List::new(alloc);
    let mut number = first;
    for input in switch.inputs.as_slice() {
        if on.find(input.0.as_slice()).is_some() {
            numbers.push(number)?;
        }
        number = number.checked_add(1).ok_or(Memory)?;
    }
    Ok(numbers)
}

/// The output of a switch, as the supply of this number.
fn output_supply(alloc: Global, switch: &SwitchText, number: u32) -> Result<Supply, Memory>
    ensures { IfOk result (λ supply. supply ≡ output_of switch.now number) }
{
    let first = number.checked_add(1).ok_or(Memory)?;
    let inputs = named_inputs(alloc, switch, first)?;
    Ok(Supply {
        name: port_name(alloc, &switch.name, &switch.output.0)?,
        unit: 0,
        kind: SupplyKind::SwitchOut,
        feeder: None,
        inputs,
        said: List::new(alloc),
    })
}

/// An input of a switch.
fn input_supply(alloc: Global, switch: &Name, input: &(Name, u32)) -> Result<Supply, Memory>
    ensures { IfOk result (λ supply. supply ≡ input_of switch.now input.now) }
{
    Ok(Supply {
        name: port_name(alloc, switch, &input.0)?,
        unit: 0,
        kind: SupplyKind::SwitchIn,
        feeder: Some(input.1),
        inputs: List::new(alloc),
        said: List::new(alloc),
    })
}

/// Adds a name. The answer is `false` where it is there already.
fn add_name(index: &mut NameIndex, name: &Name) -> Result<bool, Memory>
    ensures { IfOk result (λ new. (new ≡ not (list_any (same_name name.now) index.old)) × (new ≡ true → index.new ≡ index.old ++ name.now ∷ [])) }
{
    let new = index.add(name.as_slice())?;
    Ok(new)
}

impl Supplies {
    /// Whether a name stands for something, or stands among those before, to which it is added else.
    fn is_taken(&self, scope: u32, name: &Name, before: &mut NameIndex) -> Result<bool, Memory>
        ensures taken { IfOk result (λ taken. taken ≡ (is_some ((network_of self.now).objects (scoped scope name.now)) || list_any (same_name name.now) before.old)) }
        ensures before { IfOk result (λ taken. taken ≡ false → before.new ≡ before.old ++ name.now ∷ []) }
    {
        let object = self.object(scope, name.as_slice())?;
        if object.is_some() {
            return Ok(true);
        }
        let new = add_name(before, name)?;
        Ok(!new)
    }

    /// `U5` for the first of some names that stands for something, or that stands before in the list.
    fn check_names(&self, scope: u32, names: &List<Name>) -> Result<(), SupplyFault>
        ensures ok { OnOk result (first_taken (network_of self.now).objects scope [] names.now ≡ None) }
        ensures fault { IfErr result (IsFirstTaken (network_of self.now).objects scope names.now) }
    {
        let mut before = NameIndex::new(self.alloc);
        for name in names.as_slice() {
            if self.is_taken(scope, name, &mut before)? {
                return Err(taken(self.alloc, name.as_slice()));
            }
        }
        Ok(())
    }

    /// The first that speaks against a switch, if anything does.
    fn check_switch(&self, scope: u32, switch: &SwitchText) -> Result<(), SupplyFault>
        requires { switch.now.output.1 < length self.now.supplies }
        ensures ok { OnOk result (IsSoundSwitch (network_of self.now) scope switch.now) }
        ensures fault { IfErr result (IsSwitchFault (network_of self.now) scope switch.now) }
    {
        check_inputs(self.alloc, switch)?;
        let names = all_names(self.alloc, switch)?;
        self.check_names(scope, &names)?;
        match feeder_of(&self.supplies, switch.output.1) {
            Some(Some(_)) => Err(self.refusal(switch.output.1)),
            Some(None) => Ok(()),
            None => Err(SupplyFault::Memory),
        }
    }

    /// Lets a name stand for a switch.
    fn name_switch(&mut self, scope: u32, name: &Name) -> Result<(), Memory>
        ensures { OnOk result (network_of self.new ≡ with_switch_name (network_of self.old) scope name.now) }
    {
        let key = scoped(self.alloc, scope, name.as_slice())?;
        self.names.put(key.as_slice(), Object::Switch)?;
        Ok(())
    }

    /// Adds the inputs of a switch.
    fn push_inputs(&mut self, scope: u32, switch: &SwitchText) -> Result<(), Memory>
        requires { (p : List ℕ × ℕ) → IsIn p switch.now.inputs → p.1 < length self.old.supplies }
        ensures { OnOk result (network_of self.new ≡ with_inputs (network_of self.old) scope switch.now.name switch.now.inputs) }
    {
        for input in switch.inputs.as_slice() {
            let supply = input_supply(self.alloc, &switch.name, input)?;
            self.push_made(scope, supply)?;
        }
        Ok(())
    }

    /// Adds a power switch (`create_power_switch`) and gives the number of its output, behind which its inputs follow in
    /// their order. `U7` shows the first name of an on state that no input has, `U5` the first name of the switch and
    /// its ports that is taken, and `U6` the supply that the output would feed as a second one.
    ///
    /// A refusal leaves all as it was. What wants memory may leave parts of the switch.
    pub fn add_switch(&mut self, scope: u32, switch: &SwitchText) -> Result<u32, SupplyFault>
        requires output { switch.now.output.1 < length self.old.supplies }
        requires inputs { (p : List ℕ × ℕ) → IsIn p switch.now.inputs → p.1 < length self.old.supplies }
        ensures { MakesSwitch (network_of self.old) scope switch.now (network_of self.new) result }
    {
        self.check_switch(scope, switch)?;
        let number = self.make_switch(scope, switch)?;
        Ok(number)
    }

    /// Makes a switch against which nothing speaks.
    fn make_switch(&mut self, scope: u32, switch: &SwitchText) -> Result<u32, Memory>
        requires output { switch.now.output.1 < length self.old.supplies }
        requires inputs { (p : List ℕ × ℕ) → IsIn p switch.now.inputs → p.1 < length self.old.supplies }
        requires unfed { IsUnfed self.old.supplies switch.now.output.1 }
        ensures number { IfOk result (λ n. n ≡ length self.old.supplies) }
        ensures made { OnOk result (network_of self.new ≡ with_switch (network_of self.old) scope switch.now) }
    {
        let number = self.supplies.len();
        self.name_switch(scope, &switch.name)?;
        let output = output_supply(self.alloc, switch, number)?;
        self.push_made(scope, output)?;
        self.push_inputs(scope, switch)?;
        self.link(switch.output.1, number)?;
        Ok(number)
    }

    /// Lets a supply be fed by another one, where both have no feeder yet.
    fn link(&mut self, fed: u32, by: u32) -> Result<(), Memory>
        requires fed { fed < length self.old.supplies }
        requires by { by < length self.old.supplies }
        requires apart { fed ≢ by }
        requires unfed { IsUnfed self.old.supplies fed }
        ensures { OnOk result (network_of self.new ≡ with_link (network_of self.old) fed by) }
    {
        match self.feed(fed, by) {
            Ok(()) => Ok(()),
            Err(_) => Err(Memory),
        }
    }
}
