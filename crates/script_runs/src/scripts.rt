//! Whole scripts.
ghost use Rattle.std.specs.Prelude.{◌≡◌, OnOk, IfErr, IfSome};
ghost use Rattle.pw_defs.specs.declared.faults.Refusal.{Refusal as AnyRefusal};
ghost use Rattle.pw_outer.specs.Counts.{NoneFalls};
ghost use Rattle.script_defs.specs.World.{World};
ghost use Rattle.script_defs.specs.ReadStatements.{readers};
ghost use Rattle.script_defs.specs.Runs.{fresh};
ghost use Rattle.script_defs.specs.Loads.{LastWorld};
ghost use Rattle.script_runs.specs.Outcomes.{held_by, StopsLoad};
ghost use Rattle.script_runs.specs.Scripts.{HasStop, AnswersRun, AnswersStop};

use crate::fetching::read_lines;
use crate::frames::script_frame;
use crate::running::run_lines;
use crate::steps::LineSteps;
use pw_defs::LoadFault;
use pw_outer::Shelf;
use std::alloc::Global;

/// Runs a script, from its text on.
fn run_text<S: Shelf, L: LineSteps>(
    alloc: Global,
    shelf: &mut S,
    steps: &mut L,
    name: &str,
    text: &[u8],
) -> Result<(), LoadFault>
    requires { L.world steps.old ≡ fresh (L.design steps.old) }
    ensures same { S.holds shelf.new ≡ S.holds shelf.old }
    ensures counts { NoneFalls (S.counts shelf.old) (S.counts shelf.new) }
    ensures design { L.design steps.new ≡ L.design steps.old }
    ensures runs { OnOk result (IfSome (S.holds shelf.old) (λ files.
        LastWorld readers (held_by files) (L.design steps.old) name.now text.now (L.world steps.new))) }
    ensures stop { IfErr result (λ fault. StopsLoad (S.holds shelf.old)
        (λ files. HasStop readers (held_by files) (L.design steps.old) name.now text.now)
        (S.counts shelf.old) (S.counts shelf.new) fault) }
{
    let lines = read_lines(alloc, name, text)?;
    let frame = script_frame(alloc, name)?;
    run_lines(alloc, shelf, steps, frame, &lines)
}

/// Runs a script with the files and power models that it opens: the world of `steps`, which is fresh, becomes that of
/// its last line, or the answer is the first refusal.
///
/// After an error the world isn't used again.
pub fn run_script<S: Shelf, L: LineSteps>(
    alloc: Global,
    shelf: &mut S,
    steps: &mut L,
    name: &str,
    text: &[u8],
) -> Result<(), LoadFault>
    requires { L.world steps.old ≡ fresh (L.design steps.old) }
    ensures same { S.holds shelf.new ≡ S.holds shelf.old }
    ensures counts { NoneFalls (S.counts shelf.old) (S.counts shelf.new) }
    ensures design { L.design steps.new ≡ L.design steps.old }
    ensures runs { OnOk result (IfSome (S.holds shelf.old) (λ files.
        LastWorld readers (held_by files) (L.design steps.old) name.now text.now (L.world steps.new))) }
    ensures stop { IfErr result (λ fault. StopsLoad (S.holds shelf.old)
        (λ files. HasStop readers (held_by files) (L.design steps.old) name.now text.now)
        (S.counts shelf.old) (S.counts shelf.new) fault) }

    // There is one answer for each script, where the shelf tells what it holds.
    ensures runs_there { IfSome (S.holds shelf.old) (λ files. (w : World)
        → LastWorld readers (held_by files) (L.design steps.old) name.now text.now w
        → AnswersRun w (L.world steps.new) (S.counts shelf.old) (S.counts shelf.new) result) }
    ensures stops_there { IfSome (S.holds shelf.old) (λ files. (r : AnyRefusal)
        → HasStop readers (held_by files) (L.design steps.old) name.now text.now r
        → AnswersStop r (S.counts shelf.old) (S.counts shelf.new) result) }
{
    run_text(alloc, shelf, steps, name, text)
}
