//! The lines of a frame, one block after the other, with the frames that they open.
ghost use Rattle.std.specs.Prelude.{◌≡◌, ◌<◌, [], ◌∷◌, ℕ, List, Option, IfOk, OnOk, IfErr, IfSome};
ghost use Rattle.pw_outer.specs.Counts.{NoneFalls};
ghost use Rattle.script_defs.specs.ReadStatements.{readers};
ghost use Rattle.script_defs.specs.Runs.{command};
ghost use Rattle.script_runs.specs.Leading.{GoesOn, StopsAt, StopsTask, LinesRun, LinesStop};
ghost use Rattle.script_runs.specs.Outcomes.{held_by, StopsLoad};
ghost use Rattle.script_runs.specs.Views.{source_view, tasks_at, tasks_in, CanOpen, HasText};

use crate::fetching::open_lines;
use crate::frames::{Frame, Openings, inner_frame};
use crate::steps::LineSteps;
use pw_defs::{LoadFault, Name};
use pw_outer::Shelf;
use script_lines::{Block, Lines, take_block};
use std::alloc::Global;

/// Runs the lines of a frame.
#[cycle(running)]
pub(crate) fn run_lines<S: Shelf, L: LineSteps>(
    alloc: Global,
    shelf: &mut S,
    steps: &mut L,
    frame: Frame,
    lines: &Lines,
) -> Result<(), LoadFault>
    ensures same { S.holds shelf.new ≡ S.holds shelf.old }
    ensures counts { NoneFalls (S.counts shelf.old) (S.counts shelf.new) }
    ensures design { L.design steps.new ≡ L.design steps.old }
    ensures runs { OnOk result (IfSome (S.holds shelf.old) (λ files.
        LinesRun readers (held_by files) (L.design steps.old) frame (L.world steps.old) lines.now (L.world steps.new))) }
    ensures stop { IfErr result (λ fault. StopsLoad (S.holds shelf.old)
        (λ files. LinesStop readers (held_by files) (L.design steps.old) frame (L.world steps.old) lines.now)
        (S.counts shelf.old) (S.counts shelf.new) fault) }
{
    let mut frame = frame;
    let mut at = 0;
    while at < lines.len() {
        let (block, next) = take_block(lines, at);
        run_block(alloc, shelf, steps, &mut frame, &block)?;
        at = next;
    }
    Ok(())
}

/// Runs a line, without the frames that it opens.
fn run_line<L: LineSteps>(
    steps: &mut L,
    frame: &mut Frame,
    block: &Block<'_>,
) -> Result<Option<Openings>, LoadFault>
    ensures design { L.design steps.new ≡ L.design steps.old }
    ensures left { OnOk result (frame.new.left ≡ frame.old.left) }
    ensures room { IfOk result (λ openings. IfSome openings (CanOpen frame.new)) }
    ensures goes_on { IfOk result (λ openings. (held : List ℕ → Option (List ℕ)) → GoesOn readers held (L.design steps.old)
        frame.old (L.world steps.old) (command block.now ∷ []) frame.new (L.world steps.new) (tasks_in openings)) }
    ensures stop { IfErr result (StopsTask readers (L.design steps.old) frame.old (L.world steps.old) (command block.now ∷ [])) }
{
    match steps.run(frame, block) {
        Ok(openings) => Ok(openings),
        Err(fault) => Err(LoadFault::from(fault)),
    }
}

/// Runs a line, and the lines of the frames that it opens.
#[cycle(running)]
fn run_block<S: Shelf, L: LineSteps>(
    alloc: Global,
    shelf: &mut S,
    steps: &mut L,
    frame: &mut Frame,
    block: &Block<'_>,
) -> Result<(), LoadFault>
    ensures same { S.holds shelf.new ≡ S.holds shelf.old }
    ensures counts { NoneFalls (S.counts shelf.old) (S.counts shelf.new) }
    ensures design { L.design steps.new ≡ L.design steps.old }
    ensures left { OnOk result (frame.new.left ≡ frame.old.left) }
    ensures runs { OnOk result (IfSome (S.holds shelf.old) (λ files. GoesOn readers (held_by files) (L.design steps.old)
        frame.old (L.world steps.old) (command block.now ∷ []) frame.new (L.world steps.new) [])) }
    ensures stop { IfErr result (λ fault. StopsLoad (S.holds shelf.old)
        (λ files. StopsAt readers (held_by files) (L.design steps.old) frame.old (L.world steps.old) (command block.now ∷ []))
        (S.counts shelf.old) (S.counts shelf.new) fault) }
{
    match run_line(steps, frame, block)? {
        Some(openings) => run_openings(alloc, shelf, steps, frame, &openings),
        None => Ok(()),
    }
}

/// Runs the lines of the frames that a line opens.
#[cycle(running)]
fn run_openings<S: Shelf, L: LineSteps>(
    alloc: Global,
    shelf: &mut S,
    steps: &mut L,
    frame: &Frame,
    openings: &Openings,
) -> Result<(), LoadFault>
    requires { CanOpen frame.now openings.now }
    ensures same { S.holds shelf.new ≡ S.holds shelf.old }
    ensures counts { NoneFalls (S.counts shelf.old) (S.counts shelf.new) }
    ensures design { L.design steps.new ≡ L.design steps.old }
    ensures runs { OnOk result (IfSome (S.holds shelf.old) (λ files. GoesOn readers (held_by files) (L.design steps.old)
        frame.now (L.world steps.old) (tasks_at openings.now openings.now.homes) frame.now (L.world steps.new) [])) }
    ensures stop { IfErr result (λ fault. StopsLoad (S.holds shelf.old)
        (λ files. StopsAt readers (held_by files) (L.design steps.old)
        frame.now (L.world steps.old) (tasks_at openings.now openings.now.homes))
        (S.counts shelf.old) (S.counts shelf.new) fault) }
{
    for home in openings.homes.as_slice() {
        run_inside(alloc, shelf, steps, frame, openings, home)?;
    }
    Ok(())
}

/// Runs the lines of a frame that is opened at an instance, and the map behind it.
#[cycle(running)]
fn run_inside<S: Shelf, L: LineSteps>(
    alloc: Global,
    shelf: &mut S,
    steps: &mut L,
    frame: &Frame,
    openings: &Openings,
    home: &Name,
) -> Result<(), LoadFault>
    requires room { 0 < frame.now.left }
    requires text { HasText (source_view openings.now.source) }
    ensures same { S.holds shelf.new ≡ S.holds shelf.old }
    ensures counts { NoneFalls (S.counts shelf.old) (S.counts shelf.new) }
    ensures design { L.design steps.new ≡ L.design steps.old }
    ensures runs { OnOk result (IfSome (S.holds shelf.old) (λ files. GoesOn readers (held_by files) (L.design steps.old)
        frame.now (L.world steps.old) (tasks_at openings.now (home.now ∷ [])) frame.now (L.world steps.new) [])) }
    ensures stop { IfErr result (λ fault. StopsLoad (S.holds shelf.old)
        (λ files. StopsAt readers (held_by files) (L.design steps.old)
        frame.now (L.world steps.old) (tasks_at openings.now (home.now ∷ [])))
        (S.counts shelf.old) (S.counts shelf.new) fault) }
{
    let modelled = steps.is_modelled(home.as_slice());
    let lines = open_lines(alloc, shelf, &openings.source, modelled)?;
    let inside = inner_frame(alloc, frame, openings, home)?;
    run_lines(alloc, shelf, steps, inside, &lines)?;
    steps.map_supplies(frame, openings, home)?;
    Ok(())
}
