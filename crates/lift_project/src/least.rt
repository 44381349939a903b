//! The least state of a set.

ghost use Rattle.std.specs.Prelude.{◌≡◌, ◌≢◌, ◌<◌, ◌↔◌, ℕ, IsTrue, length, true};
ghost use Rattle.std.specs.Bool.{OnTrue, OnFalse};
ghost use Rattle.list_defs.specs.Orders.{IsLeast};
ghost use Rattle.diagram_defs.specs.Diagrams.{IsSet, kid, member};
ghost use Rattle.diagram_defs.specs.States.{state_cmp};

use state_diagrams::Pool;

/// Writes the least state of a set, index by index, and is false for the empty set alone, where it writes nothing.
pub fn first(pool: &Pool, node: u32, out: &mut [u8]) -> bool
    requires number { IsSet pool.now 0 node }
    requires size { length out.old ≡ length pool.now.arities }
    ensures found { IsTrue result ↔ (node ≢ 0) }
    ensures least { OnTrue result (IsLeast state_cmp (λ state. member pool.now.nodes node state ≡ true) out.new) }
    ensures none { OnFalse result (out.new ≡ out.old) }
{
    if pool.is_empty(node) {
        return false;
    }
    let _count = pool.nodes();
    let mut n = node;
    for level in 0..out.len() {
        let value = least_value(pool, level as u32, n);
        out[level] = value as u8;
        n = pool.child(n, value);
    }
    true
}

// The least value behind which a set that isn't empty has a rest.
fn least_value(pool: &Pool, level: u32, n: u32) -> u32
    requires level_in { level < length pool.now.arities }
    requires number { IsSet pool.now level n }
    requires some { n ≢ 0 }
    ensures some { kid pool.now.nodes n result ≢ 0 }
    ensures least { (v : ℕ) → v < result → kid pool.now.nodes n v ≡ 0 }
    ensures small { result < 64 }
{
    let arity = pool.arity(level);
    let _count = pool.nodes();
    for value in 0..arity {
        if !pool.is_empty(pool.child(n, value)) {
            return value;
        }
    }
    unreachable!()
}
