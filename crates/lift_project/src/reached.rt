//! Which kept numbers a kept number leads to.

ghost use Rattle.std.specs.Prelude.{◌<◌, IfOk, All, length};
ghost use Rattle.lift_project.specs.Lifts.{shapes_of, AreKeptNodes, IsKept};
ghost use Rattle.lift_project.specs.Marks.{AreReached, MarksKids};

use plain_lists::Kept;
use std::alloc::{AllocError, Global};

/// A mark for each number up to a kept number of the first level: whether it is that number, or one to which that
/// number leads.
pub fn reached(alloc: Global, kept: &Kept, node: u32) -> Result<Vec<bool>, AllocError>
    requires nodes { AreKeptNodes kept.now }
    requires number { IsKept kept.now 0 node }
    ensures { IfOk result (λ marks. AreReached (shapes_of kept.now) node marks.items) }
{
    let mut marks = Vec::from_elem(alloc, false, node as usize + 1)?;
    let mut n = node as usize;
    marks[n] = true;
    while n > 1 {
        if marks[n] {
            let at = n - 2;
            mark_kids(kept.nodes.as_slice()[at].kids.as_slice(), &mut marks);
        }
        n -= 1;
    }
    Ok(marks)
}

// Marks all children.
fn mark_kids(kids: &[u32], marks: &mut [bool])
    requires { All (λ kid. kid < length marks.old) kids.now }
    ensures { MarksKids kids.now marks.old marks.new }
{
    for kid in kids {
        marks[*kid as usize] = true;
    }
}
