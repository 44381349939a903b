//! What a name stands for: a body, the set of a handle, a set.
ghost use Rattle.std.specs.Prelude.{◌≡◌, ◌<◌, Some, false, is_some, length, option_and_then, option_map, IfSome, MatchOption};
ghost use Rattle.script_defs.specs.LookUps.{body_named, handle_at, handle_in, handle_of, is_set, is_taken, set_at};
ghost use Rattle.script_defs.specs.PowerStateSteps.{stateful, states_of};
ghost use Rattle.script_world.specs.Changes.{body_at, has_states};
ghost use Rattle.script_world.specs.Handles.{handle_name_seen};
ghost use Rattle.script_world.specs.Objects.{known_in, named_at, world_of};
ghost use Rattle.script_world.specs.Ranges.{AreStates, IsBody, IsHandle};
ghost use Rattle.script_world.specs.Seen.{Known, body_seen, handle_seen, states_seen};

use crate::bodies::Body;
use crate::handles::{HandleName, handle_in};
use crate::objects::Objects;
use crate::parts::Handle;
use crate::states::PowerStates;

fn is_set(body: &Body) -> bool
    ensures { (k : Known) → result ≡ is_set (Some (body_seen k body.now)) }
{
    match body {
        Body::Set(_) => true,
        _ => false,
    }
}

/// The set that a domain has as one of its handles.
fn handle_of(body: &Body, handle: HandleName) -> Option<Handle>
    ensures handle { (k : Known) → option_map (handle_seen k.objects) result ≡ handle_of (Some (body_seen k body.now)) (handle_name_seen handle) }
    ensures sound { (k : Known) → IsBody k body.now → IfSome result (IsHandle k.objects) }
{
    match body {
        Body::Domain(domain) => match handle {
            HandleName::Primary => domain.primary,
            HandleName::DefaultIsolation => domain.isolation,
        },
        _ => None,
    }
}

/// The power states of a body, where it can have some.
fn states_of(body: &Body) -> Option<&PowerStates>
    ensures none { (k : Known) → is_some result ≡ has_states (Some (body_seen k body.now)) }
    ensures some { (k : Known) → IfSome result (λ s. states_seen k.places s.now ≡ states_of (Some (body_seen k body.now))) }
    ensures sound { (k : Known) → IsBody k body.now → IfSome result (λ s. AreStates k.places s.now) }
{
    match body {
        Body::Set(set) => Some(&set.states),
        Body::Domain(domain) => Some(&domain.states),
        Body::Group(group) => Some(&**group),
        _ => None,
    }
}

impl Objects {
    /// What the object with a whole name is.
    pub fn body_named(&self, name: &[u8]) -> Option<&Body>
        ensures body { option_map (λ b. body_seen (known_in self.now) b.now) result ≡ body_named (world_of self.now.objects) name.now }
        ensures sound { IfSome result (λ b. IsBody (known_in self.now) b.now) }
    {
        let at = self.find(name)?;
        Some(self.body(at))
    }

    /// The set of a handle of the domain with a whole name.
    pub fn handle_at(&self, domain: &[u8], handle: HandleName) -> Option<Handle>
        ensures handle { option_map (handle_seen (known_in self.now).objects) result ≡ handle_at (world_of self.now.objects) (domain.now, handle_name_seen handle) }
        ensures sound { IfSome result (IsHandle (known_in self.now).objects) }
    {
        handle_of(self.body_named(domain)?, handle)
    }

    /// The number of the set of a handle, by a name of the form `D.primary` or `D.default_isolation`.
    fn handle_set(&self, name: &[u8]) -> Option<u32>
        ensures set { option_and_then (named_at self.now.objects) result ≡ option_map (λ h. h.set) (option_and_then (handle_at (world_of self.now.objects)) (handle_in name.now)) }
        ensures within { IfSome result (λ at. at < length self.now.objects) }
    {
        let (domain, handle) = handle_in(name)?;
        let handle = self.handle_at(domain, handle)?;
        Some(handle.set)
    }

    /// The number of the set that a name stands for: a set, or that of a domain's handle.
    pub fn set_at(&self, name: &[u8]) -> Option<u32>
        ensures set { option_and_then (named_at self.now.objects) result ≡ set_at (world_of self.now.objects) name.now }
        ensures within { IfSome result (λ at. at < length self.now.objects) }
    {
        if let Some(at) = self.find(name) {
            if is_set(self.body(at)) {
                return Some(at);
            }
        }
        self.handle_set(name)
    }

    /// The number of the object whose states a name stands for: those of a handle are its set's.
    pub fn stateful(&self, name: &[u8]) -> Option<u32>
        ensures object { MatchOption result (is_taken (world_of self.now.objects) (stateful (world_of self.now.objects) name.now) ≡ false) (λ at. named_at self.now.objects at ≡ Some (stateful (world_of self.now.objects) name.now)) }
        ensures within { IfSome result (λ at. at < length self.now.objects) }
    {
        match self.set_at(name) {
            Some(at) => Some(at),
            None => self.find(name),
        }
    }

    /// The power states of an object, where it can have some.
    pub fn states(&self, at: u32) -> Option<&PowerStates>
        requires { at < length self.now.objects }
        ensures none { is_some result ≡ has_states (body_at self.now.objects at) }
        ensures some { IfSome result (λ s. states_seen self.now.places s.now ≡ states_of (body_at self.now.objects at)) }
        ensures sound { IfSome result (λ s. AreStates self.now.places s.now) }
    {
        states_of(self.body(at))
    }
}
