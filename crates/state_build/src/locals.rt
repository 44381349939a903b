//! Sets of whole states that the values from some level on decide.

ghost use Rattle.diagram_defs.specs.Diagrams.{IsPool};
ghost use Rattle.diagram_defs.specs.Locals.{IsLocalFor};
ghost use Rattle.state_build.specs.Held.{all_states, no_states};

use diagram_defs::Local;
use state_diagrams::Pool;

/// All whole states.
pub(crate) fn everything(pool: &Pool) -> Local
    ensures number { IsLocalFor pool.now (all_states pool.now.arities) result }
    ensures pool { IsPool pool.now }
{
    let _count = pool.nodes();
    let level = pool.level(1);
    Local { level, number: 1 }
}

/// No whole states.
pub(crate) fn nothing(pool: &Pool) -> Local
    ensures number { IsLocalFor pool.now no_states result }
    ensures pool { IsPool pool.now }
{
    let _count = pool.nodes();
    let level = pool.level(1);
    Local { level, number: 0 }
}
