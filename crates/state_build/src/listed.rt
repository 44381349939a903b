//! The states of a number as a list of states of values.

ghost use Rattle.std.specs.Prelude.{◌≡◌, map, length};
ghost use Rattle.std.specs.List.{AllByRecursion};
ghost use Rattle.pw_defs.specs.Values.{value_cmp};
ghost use Rattle.pw_defs.specs.declared.conditions.Cond.TheVariants.{All};
ghost use Rattle.list_defs.specs.Orders.{IsRising};
ghost use Rattle.diagram_defs.specs.Diagrams.{IsNumberFor};
ghost use Rattle.state_build.specs.Built.{built_set};
ghost use Rattle.state_build.specs.ReadStates.{ListsLegal, LeastIsLeastLegal};

use pw_defs::{Cond, List, Value};
use state_diagrams::Pool;

/// Says that the number of the states at which all of some conditions hold has, read as values, the legal states in
/// their order; and, where each supply's values rise, that its least state is the least legal one.
pub fn legal_listed(pool: &Pool, lists: &[List<Value>], conds: &[Cond], n: u32)
    requires lists { map length lists.now ≡ pool.now.arities }
    requires number { IsNumberFor pool.now 0 (built_set pool.now.arities lists.now (All conds.now)) n }
    ensures listed { ListsLegal pool.now lists.now conds.now n }
    ensures least { AllByRecursion (IsRising value_cmp) lists.now → LeastIsLeastLegal pool.now lists.now conds.now n }
{}
