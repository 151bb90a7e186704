// A walk from a node to its parts, for values of any kind: each visited node's value is kept, so that a shared part is done once.
#![tactic(auto)]

ghost use Rattle.std.specs.Prelude.{◌≡◌, ◌<◌, ℕ, Result, Some, length};
ghost use Rattle.refusals.specs.Numbers.{numbered};
ghost use Rattle.pool.specs.declared.node.Node.{Node};
ghost use Rattle.pool.specs.Nodes.{parts};
ghost use Rattle.pool.specs.Pool.{limit};
ghost use Rattle.pool.specs.Tables.{nodes};
ghost use Rattle.value_walk.specs.Walk.{NodeLaws, in_table, Ready, Keeps, Walked, value_of, value_given, nth};

use pool::{LIMIT, Node, Tables};
use refusals::Refusal;

// What is done at a node, given what is kept of its parts.
pub trait Values {
    type Value: Copy;

    // the definition: what a node comes to, given what its parts come to
    ghost at_node: { Self → (ℕ → Result Self.Value ℕ) → Node → Result Self.Value ℕ };

    // what holds of every value
    ghost fits: { Self → Self.Value → Type 0 };

    fn joined(&self, kept: &[Self::Value], node: Node) -> Result<Self::Value, Refusal>
        requires { Ready (fits self.now) kept.now (parts node) }
        ensures { numbered result ≡ at_node self.now (in_table kept.now) node };

    ghost laws: { (s : Self) → NodeLaws (at_node s) (fits s) };
}

// A variable's entry in a table of values of any kind.
#[tactic(auto, unfolding(crate::specs::Walk::value_given))]
pub fn value_given<T: Copy>(values: &[T], v: u32) -> Result<T, Refusal>
    ensures { (other : T) → numbered result ≡ value_given other values.now v }
{
    values.get(v as usize).copied().ok_or(Refusal::NoValue)
}

// The value that is kept of a node.
pub fn kept_at<T: Copy>(kept: &[T], a: u32) -> T
    requires { a < length kept.now }
    ensures { Some result ≡ nth kept.now a }
{
    kept[a as usize]
}

// The value of the expression at a root, over a table that has a place for each node's value. A table of Options would need no marks, but it was tried, and a
// small expression took five times as long, since the table is made anew at every call.
pub fn value_from<V: Values>(
    of: &V,
    tables: Tables<'_>,
    kept: &mut [V::Value],
    root: u32,
) -> Result<V::Value, Refusal>
    requires { length kept.old ≡ limit }
    ensures { numbered result ≡ value_of (V.at_node of.now) (nodes tables.entry) root }
{
    if LIMIT <= root as usize {
        return Err(Refusal::BrokenPool);
    }
    let mut seen = [false; LIMIT];
    value_at(of, tables, kept, &mut seen, root)?;
    Ok(kept_at(kept, root))
}

// The walk at node i: its value is then kept, if it is not refused. The parts come first, in one loop with one call, so that a level of the walk takes little
// stack: a call for each kind made frames of 320 to 352 bytes (docs/DECISIONS.md). What the walk reads and what it writes are lent one by one: a struct of the four
// would be made for this one function, and its contract would name them all the same, as fields of it.
#[tactic(auto, using(crate::proofs::Walking::none_turned))]
fn value_at<V: Values>(
    of: &V,
    tables: Tables<'_>,
    kept: &mut [V::Value],
    seen: &mut [bool; LIMIT],
    i: u32,
) -> Result<(), Refusal>
    requires i_lt_limit { i < limit }
    requires keeps { Keeps (V.at_node of.now) (nodes tables) kept.old seen.old }
    ensures { Walked (V.at_node of.now) (nodes tables.entry) i (numbered result) kept.old seen.old kept.new seen.new }
{
    if seen[i as usize] {
        return Ok(());
    }
    let node = tables.node(i);
    let parts = node.counted_parts();
    let mut part = parts.left;
    for _ in 0..parts.count {
        if i <= part {
            return Err(Refusal::BrokenPool);
        }
        value_at(of, tables, kept, seen, part)?;
        part = parts.right;
    }
    let x = of.joined(kept, node)?;
    kept[i as usize] = x;
    seen[i as usize] = true;
    Ok(())
}
