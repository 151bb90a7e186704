// `substitute_with` of the source, with the map that takes one variable to one node: what is done at each node of the walk.
#![tactic(auto)]

ghost use Rattle.std.specs.Prelude.{◌≡◌, refl};
ghost use Rattle.pool.specs.Made.{made};
ghost use Rattle.pool.specs.Room.{room_of, RoomKept};
ghost use Rattle.walks.specs.Walk.{yield};
ghost use Rattle.walks.specs.Substitute.{substitute_node, substitute_var};
ghost use Rattle.substitute.specs.Rebuild.{rebuild_two, rebuild_one};

use constructor_calls::{One, Two, one_in, two_in};
use pool::{Node, Pool};
use refusals::Refusal;
use rewrite_walk::{Rewriting, Work};

// The variable, and the node that is put for it.
#[derive(Drop)]
struct Substitution {
    var: u32,
    value: u32,
}

impl Rewriting for Substitution {
    type Leaf = u32;

    type One = One;

    type Two = Two;

    ghost at_node = { λ of. substitute_node of.var of.value };

    ghost leaf_step = { λ of. yield };

    ghost one_step = { λ of. rebuild_one };

    ghost two_step = { λ of. rebuild_two };

    ghost empty_refused = { λ of down term. refl };

    fn work(&self, term: u32, node: Node) -> Result<Work<u32, One, Two>, Refusal> {
        match node {
            Node::Empty => Err(Refusal::BrokenPool),
            Node::Variable(v) if v == self.var => Ok(Work::Leaf(self.value)),
            Node::Variable(_) => Ok(Work::Leaf(term)),
            Node::Lit(_) => Ok(Work::Leaf(term)),
            Node::Add(a, b) => Ok(Work::Two(Two::Add, a, b)),
            Node::Mul(a, b) => Ok(Work::Two(Two::Mul, a, b)),
            Node::Div(a, b) => Ok(Work::Two(Two::Div, a, b)),
            Node::Exp(a) => Ok(Work::One(One::Exp, a)),
            Node::Log(a) => Ok(Work::One(One::Log, a)),
            Node::Pow(a, e) => Ok(Work::One(One::Pow(e), a)),
            Node::Max(a, b) => Ok(Work::Two(Two::Max, a, b)),
        }
    }

    fn leaf(&self, _pool: &mut Pool, leaf: u32) -> Result<u32, Refusal> {
        Ok(leaf)
    }

    // A node is rebuilt where a part has changed, by the constructor of its kind.
    fn one(&self, pool: &mut Pool, term: u32, op: One, a: u32, x: u32) -> Result<u32, Refusal> {
        if a == x {
            return Ok(term);
        }
        one_in(pool, op, x)
    }

    fn two(
        &self,
        pool: &mut Pool,
        term: u32,
        op: Two,
        a: u32,
        b: u32,
        x: u32,
        y: u32,
    ) -> Result<u32, Refusal> {
        if a == x && b == y {
            return Ok(term);
        }
        two_in(pool, op, x, y)
    }
}

// `substitute_var`: the expression at `root` with the node `value` for the variable `var`.
#[tactic(auto, unfolding(walks::specs::Substitute::substitute_var))]
pub fn substitute_in(pool: &mut Pool, root: u32, var: u32, value: u32) -> Result<u32, Refusal>
    ensures is { made result pool.new ≡ substitute_var root var value pool.old }
    ensures room { RoomKept result (room_of pool.old) pool.new }
{
    rewrite_walk::rewrite_in(&Substitution { var, value }, pool, root)
}
