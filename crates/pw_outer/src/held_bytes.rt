//! Sinks whose bytes are kept in memory.
ghost use Rattle.std.specs.Prelude.{◌≡◌, [], true, None, Some, map, ◌==◌};
ghost use Rattle.list_defs.specs.Members.{all_differ};
ghost use Rattle.pw_outer.specs.Counts.{raised};
ghost use Rattle.pw_outer.specs.Puts.{Took, faults_after};
ghost use Rattle.pw_outer.specs.Kinds.{TookBefore, failure_of};

use crate::sinks::{PutFault, Sink};
use plain_lists::List;
use std::alloc::Global;
use std::marker::Model;

/// A sink in memory that never fails.
#[derive(Drop)]
pub struct SureSink {
    taken: Vec<u8>,
}

impl Model for SureSink {
    ghost use Rattle.std.specs.Prelude.{List, ℕ};

    ghost Value = { List ℕ };

    ghost view = { λ sink. sink.taken.items };
}

impl SureSink {
    /// A sink that has taken nothing.
    pub fn new(alloc: Global) -> SureSink
        ensures { result ≡ [] }
    {
        SureSink {
            taken: Vec::new(alloc),
        }
    }

    /// All bytes that were taken, in their order.
    pub fn taken(&self) -> &[u8]
        ensures { result.now ≡ self.now }
    {
        self.taken.as_slice()
    }
}

impl Sink for SureSink {
    ghost use Rattle.std.specs.Prelude.{Some};

    ghost taken = { λ sink. Some sink };

    ghost faults = { λ _. 0 };

    fn put(&mut self, bytes: &[u8]) -> Result<(), PutFault>
        ensures took { TookBefore None self.old self.new bytes.now result }
    {
        self.taken.extend_from_slice(bytes)?;
        Ok(())
    }
}

/// A sink in memory that fails at chosen calls.
#[derive(Drop)]
pub struct MemSink {
    sink: SureSink,
    failing: List<(u32, u32)>,
    calls: u64,
    faults: u64,
}

impl Model for MemSink {
    ghost use Rattle.pw_outer.specs.Kinds.{FailingSink};

    ghost Value = { FailingSink };

    ghost view = { λ sink. record { taken = sink.sink; failing = sink.failing; calls = sink.calls; faults = sink.faults } };
}

impl MemSink {
    /// A sink that fails at the listed calls, each the number of a call, from 0, with the number of bytes that are
    /// taken before the failure. No two of the calls are the same.
    pub fn new(alloc: Global, failing: List<(u32, u32)>) -> MemSink
        requires { all_differ (λ call other. call == other) (map (λ listed. listed.0) failing) ≡ true }
        ensures { result ≡ record { taken = []; failing = failing; calls = 0; faults = 0 } }
    {
        MemSink {
            sink: SureSink::new(alloc),
            failing,
            calls: 0,
            faults: 0,
        }
    }

    /// All bytes that were taken, in their order.
    pub fn taken(&self) -> &[u8]
        ensures { result.now ≡ self.now.taken }
    {
        self.sink.taken()
    }
}

impl Sink for MemSink {
    ghost use Rattle.std.specs.Prelude.{Some};

    ghost taken = { λ sink. Some sink.taken };

    ghost faults = { λ sink. sink.faults };

    fn put(&mut self, bytes: &[u8]) -> Result<(), PutFault>
        ensures took { TookBefore (failure_of self.old.failing self.old.calls) self.old.taken self.new.taken bytes.now result }
        ensures count { self.new.faults ≡ faults_after self.old.faults result }
        ensures calls { self.new.calls ≡ raised self.old.calls }
        ensures failing { self.new.failing ≡ self.old.failing }
    {
        let call = self.calls;
        self.calls = call.saturating_add(1);
        match find_failure(self.failing.as_slice(), call) {
            None => self.sink.put(bytes),
            Some(most) => {
                let count = bytes.len().min(most as usize);
                self.sink.put(&bytes[..count])?;
                self.faults = self.faults.saturating_add(1);
                Err(PutFault::Failed)
            }
        }
    }
}

/// How many bytes are taken before the failure of this call, which is `None` where the call does not fail.
fn find_failure(failing: &[(u32, u32)], call: u64) -> Option<u32>
    ensures { result ≡ failure_of failing.now call }
{
    for (at, most) in failing {
        if u64::from(*at) == call {
            return Some(*most);
        }
    }
    None
}
