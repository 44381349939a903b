//! Frames where lines are run, and those that a line opens.
ghost use Rattle.std.specs.Prelude.{◌≡◌, ◌<◌, ◌-◌, IfOk};
ghost use Rattle.script_defs.specs.UnitSteps.{frame_inside};
ghost use Rattle.script_defs.specs.Runs.{first_frame, source_file};
ghost use Rattle.script_runs.specs.Views.{source_view, opening_at};

use pw_defs::{Bytes, List, Memory, Name};
use script_lines::Lines;
use std::alloc::Global;
use std::marker::Model;

/// How many frames may be opened inside that of the script.
const INNER_FRAMES: u32 = 31;

/// A frame where lines are run: their file, the scope at which the frame began, the scope now, and how many frames may
/// still be opened inside it.
#[derive(Drop)]
pub struct Frame {
    pub file: Name,
    pub home: Name,
    pub scope: Name,
    pub left: u32,
}

impl Model for Frame {
    ghost use Rattle.script_defs.specs.World.{Frame as PlainFrame};

    ghost Value = { PlainFrame };

    ghost view = { λ f. record { file = f.file; home = f.home; scope = f.scope; left = f.left } };
}

/// Where the lines of a frame come from: a file, or the body of a power model in a file.
#[derive(Drop)]
pub enum Source {
    File(Name),
    Body { file: Name, lines: Lines },
}

/// The frames that a line opens, one after the other: their lines, the instances at which they begin, and the map of
/// supplies behind each, lower sets with upper ones.
#[derive(Drop)]
pub struct Openings {
    pub source: Source,
    pub homes: List<Name>,
    pub pairs: List<(Bytes, Bytes)>,
    pub line: u32,
}

/// A copy of a name.
fn copied(alloc: Global, name: &Name) -> Result<Name, Memory>
    ensures { IfOk result (λ copy. copy ≡ name.now) }
{
    Ok(Name::from_slice(alloc, name.as_slice())?)
}

/// The frame of the script itself.
pub(crate) fn script_frame(alloc: Global, name: &str) -> Result<Frame, Memory>
    ensures { IfOk result (λ frame. frame ≡ first_frame name.now) }
{
    Ok(Frame {
        file: Name::from_slice(alloc, name.as_bytes())?,
        home: Name::from_slice(alloc, b"")?,
        scope: Name::from_slice(alloc, b"")?,
        left: INNER_FRAMES,
    })
}

/// The frame that a line of another one opens at an instance.
pub(crate) fn inner_frame(
    alloc: Global,
    frame: &Frame,
    openings: &Openings,
    home: &Name,
) -> Result<Frame, Memory>
    requires { 0 < frame.now.left }
    ensures { IfOk result (λ inside. let o = opening_at openings.now home.now in
        inside ≡ frame_inside frame.now o (source_file o.source) (frame.now.left - 1)) }
{
    let file = match &openings.source {
        Source::File(name) => name,
        Source::Body { file, .. } => file,
    };
    Ok(Frame {
        file: copied(alloc, file)?,
        home: copied(alloc, home)?,
        scope: copied(alloc, home)?,
        left: frame.left - 1,
    })
}
