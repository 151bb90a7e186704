// What the rules of the constructors ask of a node by its number, where one kind alone matters.
#![tactic(auto, using(crate::proofs::Missed::lit_missed, crate::proofs::Missed::exp_missed))]

ghost use Rattle.std.specs.Prelude.{◌≡◌};
ghost use Rattle.pool.specs.Pool.{node_at};
ghost use Rattle.constructors.specs.Patterns.{lit_in, exp_in};
ghost use Rattle.views.specs.Found.{found};

use pool::{Node, Pool};

// The literal of a node, if it is one. This function and the next differ in the variant that is matched, for which the language has no parameter.
pub fn literal_at(pool: &Pool, i: u32) -> Option<i64>
    ensures { found result ≡ lit_in (node_at pool.now i) }
{
    match pool.node(i) {
        Node::Lit(z) => Some(z),
        _ => None,
    }
}

// The argument of a node, if it is an Exp.
pub fn exp_at(pool: &Pool, i: u32) -> Option<u32>
    ensures { found result ≡ exp_in (node_at pool.now i) }
{
    match pool.node(i) {
        Node::Exp(a) => Some(a),
        _ => None,
    }
}
