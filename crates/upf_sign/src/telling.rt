//! What a run puts to its sinks, and the status that it ends with.
ghost use Rattle.std.specs.Prelude.{◌≡◌};
ghost use Rattle.upf_sign.specs.Telling.{Delivers, Says, Tells};

use crate::planning::{Finished, Stop};
use crate::refusals::refusal_text;
use pw_defs::{Memory, Status};
use pw_outer::{PutFault, Sink};
use std::alloc::Global;

const USAGE_LINE: &[u8] = b"upfsign: usage\n";

const BOUND_LINE: &[u8] = b"upfsign: bound\n";

const OUTSIDE_LINE: &[u8] = b"upfsign: outside\n";

const MEMORY_LINE: &[u8] = b"upfsign: memory\n";

/// Puts a report. Where it can't be put whole, the other sink gets a line that says why.
pub(crate) fn deliver<K: Sink, E: Sink>(finished: &Finished, out: &mut K, err: &mut E) -> Status
    ensures { Delivers finished.now.text finished.now.clean result (K.taken out.old) (K.taken out.new) (K.faults out.old) (K.faults out.new)
        (err.new ≡ err.old) (λ line status. Says line status result (E.taken err.old) (E.taken err.new) (E.faults err.old) (E.faults err.new)) }
{
    match out.put(finished.text.as_slice()) {
        Ok(()) => {
            if finished.clean {
                Status::Clean
            } else {
                Status::Findings
            }
        }
        Err(PutFault::Failed) => say(err, OUTSIDE_LINE, Status::Outside),
        Err(PutFault::Memory) => say(err, MEMORY_LINE, Status::Memory),
    }
}

/// Puts the line that says why there is no report.
pub(crate) fn tell<E: Sink>(alloc: Global, stop: &Stop, err: &mut E) -> Status
    ensures { Tells stop.now result (E.taken err.old) (E.taken err.new) (E.faults err.old) (E.faults err.new) }
{
    match stop {
        Stop::Usage => say(err, USAGE_LINE, Status::Usage),
        Stop::Refused(refusal) => match refusal_text(alloc, refusal) {
            Ok(line) => say(err, line.as_slice(), Status::Refused),
            Err(Memory) => say(err, MEMORY_LINE, Status::Memory),
        },
        Stop::Bound => say(err, BOUND_LINE, Status::Bound),
        Stop::Outside => say(err, OUTSIDE_LINE, Status::Outside),
        Stop::Memory => say(err, MEMORY_LINE, Status::Memory),
    }
}

/// Puts a line. The status stands though the sink fails.
fn say<E: Sink>(err: &mut E, line: &[u8], status: Status) -> Status
    ensures { Says line.now status result (E.taken err.old) (E.taken err.new) (E.faults err.old) (E.faults err.new) }
{
    match err.put(line) {
        Ok(()) | Err(PutFault::Failed) => status,
        Err(PutFault::Memory) => Status::Memory,
    }
}
