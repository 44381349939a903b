//! A network that is being made: supply ports, supply nets, sets and their joinings.
ghost use Rattle.std.specs.Prelude.{◌≡◌, ◌≢◌, ◌<◌, ℕ, [], Some, true, length, IfOk, OnOk, OnErr};
ghost use Rattle.supply_defs.specs.Network.{IsRoot, IsUnfed, feeder_at};
ghost use Rattle.supply_defs.specs.UnitViews.{kind_at};
ghost use Rattle.supply_net.specs.Names.{nothing, scoped};
ghost use Rattle.supply_net.specs.Feeders.{AreFeeders, IsFitting};
ghost use Rattle.supply_net.specs.Parts.{network_of};
ghost use Rattle.supply_net.specs.Networks.{IsRefusalOf, IsTaken, Joins, Makes, after_net, after_net_at, after_port, after_port_at, after_set, feeds_net, is_port, is_port_or_net, joining, may_become, net_to_keep, net_to_turn, new_supply, port_kind, with_feeder, with_kind, with_set, with_supply};

use crate::feeders::top_of;
use crate::names::{Object, ScopedNames, scoped};
use crate::roots::root_of;
use pw_defs::{Dir, List, Memory, Name, Supply, SupplyFault, SupplyKind};
use std::alloc::Global;
use std::marker::Model;
use std::mem;

/// Supplies and sets in the order in which they were made, with the names of all objects.
///
/// A call that is refused leaves all as it was, and so does one that wants memory, other than `add_switch`.
#[derive(Drop)]
pub struct Supplies {
    pub(crate) supplies: List<Supply>,
    /// For each supply one further up its feeders, or itself where it has none.
    pub(crate) above: Vec<u32>,
    pub(crate) sets: u32,
    pub(crate) names: ScopedNames,
    pub(crate) alloc: Global,
}

impl Model for Supplies {
    ghost use Rattle.supply_net.specs.Parts.{Held, IsHeld};

    ghost Value = { Held };

    ghost view = { λ s. record { supplies = s.supplies; sets = s.sets; names = s.names } };

    ghost invariant = { λ s. IsHeld s.supplies s.above.items };
}

/// A supply as it is made.
fn new_supply(alloc: Global, name: &[u8], kind: SupplyKind) -> Result<Supply, Memory>
    ensures { IfOk result (λ supply. supply ≡ new_supply name.now kind) }
{
    Ok(Supply {
        name: Name::from_slice(alloc, name)?,
        unit: 0,
        kind,
        feeder: None,
        inputs: List::new(alloc),
        said: List::new(alloc),
    })
}

/// Lets a supply be of a kind.
fn set_kind(alloc: Global, supplies: &mut List<Supply>, number: u32, kind: SupplyKind)
    ensures { supplies.new ≡ with_kind supplies.old number kind }
{
    let _limit = supplies.as_slice();
    let mut items = mem::replace(supplies, List::new(alloc)).into_vec();
    if (number as usize) < items.len() {
        items[number as usize].kind = kind;
    }
    match List::from_vec(items) {
        Some(changed) => *supplies = changed,
        None => {}
    }
}

/// Lets a supply have a feeder.
fn set_feeder(alloc: Global, supplies: &mut List<Supply>, fed: u32, by: u32)
    ensures { supplies.new ≡ with_feeder supplies.old fed by }
{
    let _limit = supplies.as_slice();
    let mut items = mem::replace(supplies, List::new(alloc)).into_vec();
    if (fed as usize) < items.len() {
        items[fed as usize].feeder = Some(by);
    }
    match List::from_vec(items) {
        Some(changed) => *supplies = changed,
        None => {}
    }
}

fn port_kind(dir: Dir) -> SupplyKind
    ensures { result ≡ port_kind dir }
{
    match dir {
        Dir::Input => SupplyKind::InPort,
        Dir::Output => SupplyKind::OutPort,
    }
}

fn is_port_or_net(kind: SupplyKind) -> bool
    ensures { result ≡ is_port_or_net kind }
{
    match kind {
        SupplyKind::InPort | SupplyKind::OutPort | SupplyKind::Net => true,
        SupplyKind::SwitchIn | SupplyKind::SwitchOut | SupplyKind::Kept => false,
    }
}

/// Whether a supply is a net that may become a port.
fn may_become(dir: Dir, supply: &Supply) -> bool
    ensures { result ≡ may_become dir supply.now }
{
    match supply.kind {
        SupplyKind::Net => match dir {
            Dir::Input => supply.feeder.is_none(),
            Dir::Output => true,
        },
        SupplyKind::InPort
        | SupplyKind::OutPort
        | SupplyKind::SwitchIn
        | SupplyKind::SwitchOut
        | SupplyKind::Kept => false,
    }
}

/// Whether a supply port feeds the net that it is joined to.
fn feeds_net(kind: Option<SupplyKind>, inner: bool) -> bool
    ensures { result ≡ feeds_net kind inner }
{
    match kind {
        Some(SupplyKind::InPort) => !inner,
        Some(SupplyKind::OutPort) => inner,
        Some(SupplyKind::Net | SupplyKind::SwitchIn | SupplyKind::SwitchOut | SupplyKind::Kept)
        | None => false,
    }
}

fn kind_of(supplies: &List<Supply>, supply: u32) -> Option<SupplyKind>
    ensures { result ≡ kind_at supplies.now supply }
{
    let supply = supplies.get(supply)?;
    Some(supply.kind)
}

pub(crate) fn feeder_of(supplies: &List<Supply>, supply: u32) -> Option<Option<u32>>
    ensures { result ≡ feeder_at supplies.now supply }
{
    let supply = supplies.get(supply)?;
    Some(supply.feeder)
}

/// The net that a name stands for and that may become a port.
fn net_to_turn(supplies: &List<Supply>, dir: Dir, object: Object) -> Option<u32>
    ensures { result ≡ net_to_turn supplies.now dir object }
{
    match object {
        Object::Supply(number) => match supplies.get(number) {
            Some(supply) => {
                if may_become(dir, supply) {
                    Some(number)
                } else {
                    None
                }
            }
            None => None,
        },
        Object::Set | Object::Switch => None,
    }
}

/// The supply port or net that a name stands for.
fn net_to_keep(supplies: &List<Supply>, object: Object) -> Option<u32>
    ensures { result ≡ net_to_keep supplies.now object }
{
    match object {
        Object::Supply(number) => match supplies.get(number) {
            Some(supply) => {
                if is_port_or_net(supply.kind) {
                    Some(number)
                } else {
                    None
                }
            }
            None => None,
        },
        Object::Set | Object::Switch => None,
    }
}

/// The refusal of a name that is there already.
pub(crate) fn taken(alloc: Global, name: &[u8]) -> SupplyFault
    ensures { IsTaken name.now result }
{
    match Name::from_slice(alloc, name) {
        Ok(name) => SupplyFault::U5(name),
        Err(_) => SupplyFault::Memory,
    }
}

impl Supplies {
    /// No supplies and no sets.
    pub fn new(alloc: Global) -> Supplies
        ensures supplies { result.supplies ≡ [] }
        ensures sets { result.sets ≡ 0 }
        ensures objects { (network_of result).objects ≡ nothing }
    {
        Supplies {
            supplies: List::new(alloc),
            above: Vec::new(alloc),
            sets: 0,
            names: ScopedNames::new(alloc),
            alloc,
        }
    }

    /// The supplies by number, in the order in which they were made.
    pub fn list(&self) -> &List<Supply>
        ensures supplies { result.now ≡ self.now.supplies }
        ensures feeders { AreFeeders self.now.supplies }
    {
        &self.supplies
    }

    /// The root of a supply, where the feeders end at the supplies of `stop`. It goes up from feeder to feeder, and looks
    /// for each in `stop`.
    pub fn root(&self, supply: u32, stop: &[u32]) -> u32
        requires { supply < length self.now.supplies }
        ensures { IsRoot self.now.supplies stop.now supply result }
    {
        root_of(&self.supplies, supply, stop)
    }

    /// Adds a supply, whose name then stands for it.
    fn push_supply(&mut self, scope: u32, name: &[u8], kind: SupplyKind) -> Result<u32, Memory>
        ensures number { IfOk result (λ n. n ≡ length self.old.supplies) }
        ensures ok { OnOk result (network_of self.new ≡ with_supply (network_of self.old) scope (new_supply name.now kind)) }
        ensures err { OnErr result (network_of self.new ≡ network_of self.old) }
    {
        let supply = new_supply(self.alloc, name, kind)?;
        self.push_made(scope, supply)
    }

    /// Adds a supply as it is, whose name then stands for it. Its feeder, if it has one, is there already.
    pub(crate) fn push_made(&mut self, scope: u32, supply: Supply) -> Result<u32, Memory>
        requires { IsFitting self.old.supplies supply.feeder }
        ensures number { IfOk result (λ n. n ≡ length self.old.supplies) }
        ensures ok { OnOk result (network_of self.new ≡ with_supply (network_of self.old) scope supply) }
        ensures err { OnErr result (network_of self.new ≡ network_of self.old) }
    {
        let key = scoped(self.alloc, scope, supply.name.as_slice())?;
        let number = self.supplies.len();
        let above = supply.feeder.unwrap_or(number);
        self.above.reserve(1)?;
        self.supplies.push(supply)?;
        match self.names.put(key.as_slice(), Object::Supply(number)) {
            Ok(()) => {
                self.above.push_reserved(above);
                Ok(number)
            }
            Err(fault) => {
                let _last = self.supplies.pop();
                Err(fault)
            }
        }
    }

    /// What a name stands for in a scope.
    pub(crate) fn object(&self, scope: u32, name: &[u8]) -> Result<Option<Object>, Memory>
        ensures { IfOk result (λ object. object ≡ (network_of self.now).objects (scoped scope name.now)) }
    {
        let key = scoped(self.alloc, scope, name)?;
        let object = self.names.find(key.as_slice());
        Ok(object)
    }

    /// Lets the net that a name stands for be a port.
    fn turn(&mut self, object: Object, dir: Dir, name: &[u8]) -> Result<u32, SupplyFault>
        ensures { (scope : ℕ) → Makes (after_port_at (network_of self.old) scope name.now dir (Some object)) name.now (network_of self.old) (network_of self.new) result }
    {
        match net_to_turn(&self.supplies, dir, object) {
            Some(number) => {
                set_kind(self.alloc, &mut self.supplies, number, port_kind(dir));
                Ok(number)
            }
            None => Err(taken(self.alloc, name)),
        }
    }

    /// Adds a supply port (`create_supply_port`), or makes the net of its name the port, and gives its number. `U5` says
    /// that the name stands for something else, or for a net with a feeder while the port is an input.
    pub fn add_port(&mut self, scope: u32, name: &[u8], dir: Dir) -> Result<u32, SupplyFault>
        ensures { Makes (after_port (network_of self.old) scope name.now dir) name.now (network_of self.old) (network_of self.new) result }
    {
        match self.object(scope, name)? {
            Some(object) => self.turn(object, dir, name),
            None => {
                let number = self.push_supply(scope, name, port_kind(dir))?;
                Ok(number)
            }
        }
    }

    /// The number of the supply port or net that a name stands for.
    fn keep(&self, object: Object, name: &[u8]) -> Result<u32, SupplyFault>
        ensures { (scope : ℕ) → Makes (after_net_at (network_of self.now) scope name.now (Some object)) name.now (network_of self.now) (network_of self.now) result }
    {
        match net_to_keep(&self.supplies, object) {
            Some(number) => Ok(number),
            None => Err(taken(self.alloc, name)),
        }
    }

    /// Adds a supply net (`create_supply_net`) and gives its number, which is that of the port or net of its name where
    /// there is one. `U5` says that the name stands for something else.
    pub fn add_net(&mut self, scope: u32, name: &[u8]) -> Result<u32, SupplyFault>
        ensures { Makes (after_net (network_of self.old) scope name.now) name.now (network_of self.old) (network_of self.new) result }
    {
        match self.object(scope, name)? {
            Some(object) => self.keep(object, name),
            None => {
                let number = self.push_supply(scope, name, SupplyKind::Net)?;
                Ok(number)
            }
        }
    }

    /// Adds a supply set (`create_supply_set`) and gives its number; sets are numbered from 0, apart from supplies. `U5`
    /// says that the name is there already.
    pub fn add_set(&mut self, scope: u32, name: &[u8]) -> Result<u32, SupplyFault>
        ensures { Makes (after_set (network_of self.old) scope name.now) name.now (network_of self.old) (network_of self.new) result }
    {
        match self.object(scope, name)? {
            Some(_) => Err(taken(self.alloc, name)),
            None => {
                let number = self.push_set(scope, name)?;
                Ok(number)
            }
        }
    }

    /// Adds a set, whose name then stands for it.
    fn push_set(&mut self, scope: u32, name: &[u8]) -> Result<u32, Memory>
        ensures number { IfOk result (λ n. n ≡ self.old.sets) }
        ensures ok { OnOk result (network_of self.new ≡ with_set (network_of self.old) scope name.now) }
        ensures err { OnErr result (network_of self.new ≡ network_of self.old) }
    {
        let key = scoped(self.alloc, scope, name)?;
        let number = self.sets;
        let Some(more) = number.checked_add(1) else {
            return Err(Memory);
        };
        self.names.put(key.as_slice(), Object::Set)?;
        self.sets = more;
        Ok(number)
    }

    /// Lets a supply be fed by another, where it has no feeder yet and no ring comes of it.
    fn join(&mut self, fed: u32, by: u32) -> Result<(), SupplyFault>
        requires fed { fed < length self.old.supplies }
        requires by { by < length self.old.supplies }
        ensures { Joins fed by (network_of self.old) (network_of self.new) result }
    {
        if fed == by {
            return Ok(());
        }
        match feeder_of(&self.supplies, fed) {
            Some(Some(other)) => {
                if other == by {
                    Ok(())
                } else {
                    Err(self.refusal(fed))
                }
            }
            Some(None) => self.feed(fed, by),
            None => Err(SupplyFault::Memory),
        }
    }

    /// The refusal of a joining that would feed a supply.
    pub(crate) fn refusal(&self, fed: u32) -> SupplyFault
        requires { fed < length self.now.supplies }
        ensures { IsRefusalOf self.now.supplies fed result }
    {
        match self.supplies.get(fed) {
            Some(supply) => match supply.name.clone() {
                Ok(name) => SupplyFault::U6(name),
                Err(_) => SupplyFault::Memory,
            },
            None => SupplyFault::Memory,
        }
    }

    /// Lets a supply without feeder be fed by another, where no ring comes of it.
    pub(crate) fn feed(&mut self, fed: u32, by: u32) -> Result<(), SupplyFault>
        requires fed { fed < length self.old.supplies }
        requires by { by < length self.old.supplies }
        requires unfed { IsUnfed self.old.supplies fed }
        requires apart { fed ≢ by }
        ensures { Joins fed by (network_of self.old) (network_of self.new) result }
    {
        let top = top_of(&self.supplies, &mut self.above, by)?;
        if top == fed {
            return Err(self.refusal(fed));
        }
        set_feeder(self.alloc, &mut self.supplies, fed, by);
        self.above[fed as usize] = by;
        Ok(())
    }

    /// Joins a net to a supply port (`connect_supply_net`), which stands further in where `inner` is true and else in the
    /// scope of the line. `U6` shows the supply that would get a second feeder, or would feed itself in a ring.
    pub fn connect(&mut self, net: u32, port: u32, inner: bool) -> Result<(), SupplyFault>
        requires net { net < length self.old.supplies }
        requires there { port < length self.old.supplies }
        requires port { is_port (kind_at self.old.supplies port) ≡ true }
        ensures { let ends = joining self.old.supplies net port inner in Joins ends.0 ends.1 (network_of self.old) (network_of self.new) result }
    {
        if feeds_net(kind_of(&self.supplies, port), inner) {
            self.join(net, port)
        } else {
            self.join(port, net)
        }
    }
}
