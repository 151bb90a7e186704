// Whether a node that meets a test is reached: what holds of each node up to the root is kept in a table, the smaller numbers first.
#![tactic(auto)]

ghost use Rattle.std.specs.Prelude.{◌≡◌, ◌≤◌, Bool, length};
ghost use Rattle.pool.specs.declared.node.Node.{Node};
ghost use Rattle.pool.specs.Nodes.{parts};
ghost use Rattle.pool.specs.Pool.{limit};
ghost use Rattle.pool.specs.Tables.{nodes};
ghost use Rattle.pool.specs.Reaches.{some, reaches_at, reaches};
ghost use Rattle.reached.specs.Kept.{Decides, kept_below, FoundBelow};

use pool::{LIMIT, Node, Parts, Tables};

// The first kind with parts, by document 01's table.
const ADD: u8 = 3;

// What was found of a part; a part that is not smaller reaches nothing.
fn kept(found: &[bool; LIMIT], i: u32, a: u32) -> bool
    requires { i ≤ limit }
    ensures { result ≡ kept_below found.now i a }
{
    a < i && found[a as usize]
}

// What was found of any part of a node.
fn kept_of_parts(found: &[bool; LIMIT], i: u32, node: Node) -> bool
    requires { i ≤ limit }
    ensures { result ≡ some (kept_below found.now i) (parts node) }
{
    match node.parts() {
        Parts::None => false,
        Parts::One(a) => kept(found, i, a),
        Parts::Two(a, b) => kept(found, i, a) || kept(found, i, b),
    }
}

// Whether a node meets the test or one of its parts reaches one that does. A leaf has no parts, and is told apart by one comparison: many nodes are leaves.
fn node_reaches<F: Fn(Node) -> bool>(found: &[bool; LIMIT], i: u32, test: &F, node: Node) -> bool
    requires i_le_limit { i ≤ limit }
    requires callable { F.IsAlwaysCallable test.now }
    ensures { (is : Node → Bool) → Decides (F.post test.now) is → result ≡ reaches_at is (kept_below found.now i) node }
{
    if test(node) {
        return true;
    }
    if node.kind() < ADD {
        return false;
    }
    kept_of_parts(found, i, node)
}

// The answers of the nodes before a number, the smaller ones first.
#[tactic(auto, using(crate::proofs::Found::none_found, crate::proofs::Found::one_more_found))]
fn fill<F: Fn(Node) -> bool>(tables: Tables<'_>, test: &F, found: &mut [bool; LIMIT], end: u32)
    requires found_len { length found.old ≡ limit }
    requires end_le_limit { end ≤ limit }
    requires callable { F.IsAlwaysCallable test.now }
    ensures { (is : Node → Bool) → Decides (F.post test.now) is → FoundBelow is (nodes tables.entry) end found.new }
{
    for i in 0..end {
        found[i as usize] = node_reaches(found, i, test, tables.node(i));
    }
}

// Whether a node that meets the test is reached from the root: each node is looked at once. Past the tables there is no node.
#[tactic(auto, using(crate::proofs::Found::no_node))]
pub fn reaches<F: Fn(Node) -> bool>(tables: Tables<'_>, root: u32, test: F) -> bool
    requires { F.IsAlwaysCallable test }
    ensures { (is : Node → Bool) → Decides (F.post test) is → result ≡ reaches is (nodes tables.entry) root }
{
    let at = root as usize;
    if LIMIT <= at {
        return test(Node::Empty);
    }
    let mut found = [false; LIMIT];
    fill(tables, &test, &mut found, root + 1);
    found[at]
}
