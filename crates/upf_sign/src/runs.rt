//! The run of the program.
ghost use Rattle.std.specs.Prelude.{◌≡◌, ◌⊎◌, ℕ, List, IfSome, map, string_bytes};
ghost use Rattle.pw_defs.specs.declared.faults.Refusal.{Refusal};
ghost use Rattle.pw_outer.specs.Counts.{Rose};
ghost use Rattle.pw_outer.specs.Puts.{GrewByFront};
ghost use Rattle.upf_sign.specs.declared.answers.Answer.{Answer};
ghost use Rattle.upf_sign.specs.declared.answers.Answer.TheVariants.{Bound};
ghost use Rattle.upf_sign.specs.Faults.{IsFault};
ghost use Rattle.upf_sign.specs.RefusalText.{IsReason, refusal_text, usage_line, bound_line, outside_line};
ghost use Rattle.upf_sign.specs.Runs.{Deserve, IsRefused, IsUndisturbed, KeepsErrors, KeepsOutput, Outputs, TookLine, status_for};
ghost use Rattle.upf_sign.specs.Words.{Job, IsJob, HasJob, IsNoJob};

use crate::laws::one_answer;
use crate::planning::plan;
use crate::telling::{deliver, tell};
use pw_defs::Status;
use pw_outer::{Shelf, Sink};
use std::alloc::Global;

/// Runs the program on its words, without its own name: fetches the files that they name from the shelf, puts the
/// report to `out`, or the line that says why there is none to `err`, and answers how it ended.
///
/// The report is put at once, when it is whole. `Memory`, for want of memory, is the one answer that no clause limits.
pub fn run<S: Shelf, K: Sink, E: Sink>(
    alloc: Global,
    words: &[String],
    shelf: &mut S,
    out: &mut K,
    err: &mut E,
) -> Status
    // `out` took the report that the words deserve over the files that the shelf holds, all of it with Clean, where it
    // has no findings, and with Findings, where it has some.
    ensures output { IfSome (S.holds shelf.old) (λ files. Outputs (map string_bytes words.now) files result (K.taken out.old) (K.taken out.new)) }
    ensures silent { KeepsOutput result out.old out.new }
    ensures partial { result ≡ Status.Outside → (K.taken out.new ≡ K.taken out.old) ⊎ Rose (K.faults out.old) (K.faults out.new) }
    ensures quiet { KeepsErrors result err.old err.new }

    // Every other status has its cause, and its line on `err`.
    ensures usage { result ≡ Status.Usage
        → IsNoJob (map string_bytes words.now) × TookLine (E.taken err.old) (E.taken err.new) (E.faults err.old) (E.faults err.new) usage_line }
    ensures refused { result ≡ Status.Refused
        → (r : Refusal) × IsRefused (map string_bytes words.now) (S.holds shelf.old) (S.counts shelf.old) (S.counts shelf.new) r
        × TookLine (E.taken err.old) (E.taken err.new) (E.faults err.old) (E.faults err.new) (refusal_text r) }
    ensures bound { result ≡ Status.Bound
        → HasJob (map string_bytes words.now) × IfSome (S.holds shelf.old) (λ files. Deserve (map string_bytes words.now) files Bound)
        × TookLine (E.taken err.old) (E.taken err.new) (E.faults err.old) (E.faults err.new) bound_line }
    ensures outside { result ≡ Status.Outside
        → (Rose (S.counts shelf.old).faults (S.counts shelf.new).faults ⊎ Rose (K.faults out.old) (K.faults out.new))
        × TookLine (E.taken err.old) (E.taken err.new) (E.faults err.old) (E.faults err.new) outside_line }
    ensures memory { result ≡ Status.Memory → (line : List ℕ) × IsReason line × GrewByFront (E.taken err.old) (E.taken err.new) line }

    // Each cause has its status, unless the outside failed or memory ran out.
    ensures usage_there { IsNoJob (map string_bytes words.now) → (result ≡ Status.Usage) ⊎ (result ≡ Status.Memory) }
    ensures refused_there { IfSome (S.holds shelf.old) (λ files. (job : Job) (r : Refusal)
        → IsJob (map string_bytes words.now) job → IsFault files job r
        → IsUndisturbed (S.counts shelf.old) (S.counts shelf.new) (K.faults out.old) (K.faults out.new)
        → (result ≡ Status.Refused) ⊎ (result ≡ Status.Memory)) }
    ensures answered_there { IfSome (S.holds shelf.old) (λ files. (answer : Answer)
        → Deserve (map string_bytes words.now) files answer
        → IsUndisturbed (S.counts shelf.old) (S.counts shelf.new) (K.faults out.old) (K.faults out.new)
        → (result ≡ status_for answer) ⊎ (result ≡ Status.Memory)) }
{
    one_answer();
    match plan(alloc, words, shelf) {
        Ok(finished) => deliver(&finished, out, err),
        Err(stop) => tell(alloc, &stop, err),
    }
}
