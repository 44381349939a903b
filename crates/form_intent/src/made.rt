//! The names of what the lines make: nets, sets and domains share one name space.
ghost use Rattle.std.specs.Prelude.{◌≡◌, [], true, false, not, IfOk, MatchOption, MatchBool};
ghost use Rattle.form_intent.specs.Script.{object_made};
ghost use Rattle.form_intent.specs.Fits.{is_made, is_made_if_any, names_fit, names_known};

use line_forms::CommandLine;
use name_index::NameIndex;
use pw_defs::{Memory, Name};
use std::alloc::{AllocError, Global};

/// The nets, the sets and the domains that lines make, each in order.
#[derive(Drop)]
pub struct Made {
    pub nets: NameIndex,
    pub sets: NameIndex,
    pub domains: NameIndex,
}

impl Made {
    ghost use Rattle.form_intent.specs.Made.{Gains, IsMadeBy, is_taken, is_taken_if_any};

    /// What the lines make, or `None` exactly where a line names what no line before it made, or makes what is there.
    pub fn by_lines(
        alloc: Global,
        commands: &[CommandLine],
        instances: &NameIndex,
    ) -> Result<Option<Made>, Memory>
        ensures { IfOk result (λ made. MatchOption made
            (names_fit instances.now commands.now ≡ false)
            (λ made. (names_fit instances.now commands.now ≡ true) × IsMadeBy commands.now made)) }
    {
        let mut made = Made::new(alloc);
        for command in commands {
            if !made.knows(instances, command) {
                return Ok(None);
            }
            if !made.add(command)? {
                return Ok(None);
            }
        }
        Ok(Some(made))
    }

    fn new(alloc: Global) -> Made
        ensures { IsMadeBy [] result }
    {
        Made {
            nets: NameIndex::new(alloc),
            sets: NameIndex::new(alloc),
            domains: NameIndex::new(alloc),
        }
    }

    /// Whether a line names only what is made already, and instances of the top.
    fn knows(&self, instances: &NameIndex, command: &CommandLine) -> bool
        ensures { result ≡ names_known instances.now self.now.nets self.now.sets command.now }
    {
        match command {
            CommandLine::SupplyNet { .. } => true,
            CommandLine::SupplyState { net, .. } => has(&self.nets, net),
            CommandLine::SupplySet { power, ground, .. } => {
                has(&self.nets, power) && has_if_any(&self.nets, ground)
            }
            CommandLine::Domain {
                element,
                primary,
                ..
            } => has(&self.sets, primary) && has_if_any(instances, element),
        }
    }

    /// Adds what a line makes. The answer is `false`, and nothing is added, where its name is taken.
    fn add(&mut self, command: &CommandLine) -> Result<bool, AllocError>
        ensures new { IfOk result (λ new. new ≡ not (is_taken_if_any self.old (object_made command.now))) }
        ensures gains { IfOk result (λ new. MatchBool new (Gains command.now self.old self.new) (self.new ≡ self.old)) }
    {
        match command {
            CommandLine::SupplyNet { net } => {
                if self.is_taken(net) {
                    return Ok(false);
                }
                self.nets.add(net.as_slice())
            }
            CommandLine::SupplyState { .. } => Ok(true),
            CommandLine::SupplySet { set, .. } => {
                if self.is_taken(set) {
                    return Ok(false);
                }
                self.sets.add(set.as_slice())
            }
            CommandLine::Domain { domain, .. } => {
                if self.is_taken(domain) {
                    return Ok(false);
                }
                self.domains.add(domain.as_slice())
            }
        }
    }

    fn is_taken(&self, name: &Name) -> bool
        ensures { result ≡ is_taken self.now name.now }
    {
        has(&self.nets, name) || has(&self.sets, name) || has(&self.domains, name)
    }
}

fn has(names: &NameIndex, name: &Name) -> bool
    ensures { result ≡ is_made names.now name.now }
{
    names.find(name.as_slice()).is_some()
}

fn has_if_any(names: &NameIndex, name: &Option<Name>) -> bool
    ensures { result ≡ is_made_if_any names.now name.now }
{
    match name {
        None => true,
        Some(name) => has(names, name),
    }
}
