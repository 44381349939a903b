//! Sets of states as tasks of words, and how many nodes they take.

ghost use Rattle.std.specs.Prelude.{◌≤◌, IfSome};
ghost use Rattle.bench.specs.Links.{MayRun};

use crate::joined::{Link, gathered_nodes, joined_nodes, level_count};
use crate::modes::mode_nodes;
use crate::random::random_nodes;
use crate::{MAX_LEVELS, Told};
use pw_defs::DiagFault;
use state_meets::GatherFault;
use std::alloc::{AllocError, Global};

/// What is made, and of which size.
pub enum Task {
    Joined(Link, u32),
    Gathered(Link, u32),
    Modes(u32, u32),
    Random(u32),
}

/// The task of two words.
fn sized_task(kind: &str, size: &str) -> Option<Task>
    ensures { IfSome result MayRun }
{
    let size = size.parse::<u32>().ok()?;
    if size == 0 || size > 1_000_000 {
        return None;
    }
    match kind {
        "pairs" => joined_task(Link::Beside, size, false),
        "pairs-walk" => joined_task(Link::Beside, size, true),
        "apart" => joined_task(Link::Behind, size, false),
        "apart-walk" => joined_task(Link::Behind, size, true),
        // The supplies of a chain are one more than its links.
        "chain" => joined_task(Link::Chain, size - 1, false),
        "chain-walk" => joined_task(Link::Chain, size - 1, true),
        "random" => Some(Task::Random(size)),
        _ => None,
    }
}

/// The task of so many links, where the supplies aren't too many.
fn joined_task(link: Link, count: u32, walk: bool) -> Option<Task>
    requires { count ≤ 1000000 }
    ensures { IfSome result MayRun }
{
    if level_count(link, count) > MAX_LEVELS {
        return None;
    }
    if walk {
        return Some(Task::Gathered(link, count));
    }
    Some(Task::Joined(link, count))
}

/// The task of a table of modes.
fn modes_task(kind: &str, roots: &str, modes: &str) -> Option<Task>
    ensures { IfSome result MayRun }
{
    let roots = roots.parse::<u32>().ok()?;
    let modes = modes.parse::<u32>().ok()?;
    if kind != "modes" || roots > MAX_LEVELS || modes > 1_000_000 {
        return None;
    }
    Some(Task::Modes(roots, modes))
}

/// How many nodes there are then, and, where it is told, before the last step.
fn nodes_of(alloc: Global, task: Task) -> Result<(u32, Option<u32>), GatherFault>
    requires { MayRun task }
{
    match task {
        Task::Joined(link, count) => Ok((joined_nodes(alloc, link, count)?, None)),
        Task::Gathered(link, count) => {
            let (before, nodes) = gathered_nodes(alloc, link, count)?;
            Ok((nodes, Some(before)))
        }
        Task::Modes(roots, modes) => Ok((mode_nodes(alloc, roots, modes)?, None)),
        Task::Random(size) => {
            let (before, nodes) = random_nodes(alloc, size)?;
            Ok((nodes, Some(before)))
        }
    }
}

/// The task of words.
fn task_of(words: &[&str]) -> Option<Task>
    ensures { IfSome result MayRun }
{
    match words {
        [kind, size] => sized_task(*kind, *size),
        [kind, roots, modes] => modes_task(*kind, *roots, *modes),
        _ => None,
    }
}

/// How many nodes the table of a task has, which is `None` where the words name no task.
pub fn nodes_told(alloc: Global, words: &[&str]) -> Result<Option<Told>, AllocError> {
    let Some(task) = task_of(words) else {
        return Ok(None);
    };
    let text = match nodes_of(alloc, task) {
        Ok((nodes, None)) => format!(in alloc; "nodes {nodes}")?,
        Ok((nodes, Some(before))) => format!(in alloc; "nodes {nodes} before {before}")?,
        Err(GatherFault::Table(DiagFault::Bound { nodes })) => format!(in alloc; "bound {nodes}")?,
        Err(GatherFault::GivenUp) => String::from_str(alloc, "given up")?,
        Err(GatherFault::Table(DiagFault::Memory)) => return Err(AllocError),
    };
    Ok(Some(Told::Counts(text)))
}
