// `derive_with` of the source: what is done at each node of the walk.
#![tactic(auto)]

mod quotient;
mod rules;

ghost use Rattle.std.specs.Prelude.{◌≡◌, refl};
ghost use Rattle.pool.specs.Made.{made};
ghost use Rattle.pool.specs.Room.{room_of, RoomKept};
ghost use Rattle.walks.specs.Derive.{lit, derive_node, derive};
ghost use Rattle.derive.specs.Rules.{rule_two, rule_one};

use crate::rules::{One, Two, lit_rule, rule_one, rule_two, slope};
use pool::{Node, Pool};
use refusals::Refusal;
use rewrite_walk::{Rewriting, Work};

// The variable by which is derived.
#[derive(Drop)]
struct Derivation {
    var: u32,
}

impl Rewriting for Derivation {
    type Leaf = i64;

    type One = One;

    type Two = Two;

    ghost at_node = { λ of. derive_node of.var };

    ghost leaf_step = { λ of. lit };

    ghost one_step = { λ of term op. rule_one op term };

    ghost two_step = { λ of term. rule_two };

    ghost empty_refused = { λ of down term. refl };

    fn work(&self, _term: u32, node: Node) -> Result<Work<i64, One, Two>, Refusal> {
        match node {
            Node::Empty => Err(Refusal::BrokenPool),
            Node::Variable(v) => Ok(Work::Leaf(slope(v, self.var))),
            Node::Lit(_) => Ok(Work::Leaf(0)),
            Node::Add(a, b) => Ok(Work::Two(Two::Add, a, b)),
            Node::Mul(a, b) => Ok(Work::Two(Two::Mul, a, b)),
            Node::Div(a, b) => Ok(Work::Two(Two::Div, a, b)),
            Node::Exp(a) => Ok(Work::One(One::Exp, a)),
            Node::Log(a) => Ok(Work::One(One::Log, a)),
            Node::Pow(a, e) => Ok(Work::One(One::Pow(e), a)),
            Node::Max(_, _) => Err(Refusal::MaxReached),
        }
    }

    // A number of slope 0 or 1.
    fn leaf(&self, pool: &mut Pool, z: i64) -> Result<u32, Refusal> {
        lit_rule(pool, z)
    }

    fn one(&self, pool: &mut Pool, term: u32, op: One, a: u32, da: u32) -> Result<u32, Refusal> {
        rule_one(pool, op, term, a, da)
    }

    fn two(
        &self,
        pool: &mut Pool,
        _term: u32,
        op: Two,
        a: u32,
        b: u32,
        da: u32,
        db: u32,
    ) -> Result<u32, Refusal> {
        rule_two(pool, op, a, b, da, db)
    }
}

// `derive`: the derivative by the variable `var` of the expression at `root`.
#[tactic(auto, unfolding(walks::specs::Derive::derive))]
pub fn derive_in(pool: &mut Pool, root: u32, var: u32) -> Result<u32, Refusal>
    ensures is { made result pool.new ≡ derive root var pool.old }
    ensures room { RoomKept result (room_of pool.old) pool.new }
{
    rewrite_walk::rewrite_in(&Derivation { var }, pool, root)
}
