// The leaves: a literal and a variable.
ghost use Rattle.std.specs.Prelude.{◌≡◌};
ghost use Rattle.refusals.specs.Numbers.{numbered};
ghost use Rattle.lent.specs.Call.{Called, on_pool};
ghost use Rattle.engine.specs.Build.{lit_work, var_work};

use lent::Lent;
use pool::{Node, Pool};
use refusals::Refusal;

// A literal becomes a node.
#[tactic(auto, using(crate::proofs::Growing::node_appended))]
pub fn lit(lent: &mut Lent<'_>, value: i64) -> Result<u64, Refusal>
    ensures { Called (on_pool (lit_work value)) lent.old (numbered result) lent.new }
{
    let mut pool = Pool::empty();
    lent.take_in(&mut pool)?;
    if !literal::is_literal(value) {
        return Err(Refusal::NotLiteral);
    }
    let made = pool.append(Node::Lit(value));
    lent.finish(&pool, made)
}

// A variable becomes a node.
#[tactic(auto, using(crate::proofs::Growing::node_appended))]
pub fn var(lent: &mut Lent<'_>, number: u64) -> Result<u64, Refusal>
    ensures { Called (on_pool (var_work number)) lent.old (numbered result) lent.new }
{
    let mut pool = Pool::empty();
    lent.take_in(&mut pool)?;
    lent::variable_given(number)?;
    let made = pool.append(Node::Variable(number as u32));
    lent.finish(&pool, made)
}
