// The constructors of two nodes.
ghost use Rattle.std.specs.Prelude.{◌≡◌, [], ◌∷◌};
ghost use Rattle.refusals.specs.Numbers.{numbered};
ghost use Rattle.constructors.specs.Build.{calls, depth};
ghost use Rattle.lent.specs.Call.{Called, on_pool, given_nodes};
ghost use Rattle.engine.specs.Build.{on_two};

use constructor_calls::{Two, two_in};
use lent::Lent;
use pool::Pool;
use refusals::Refusal;

// 1 and 2, then the work.
#[tactic(auto, using(crate::proofs::Growing::two_appended))]
fn on_two(lent: &mut Lent<'_>, op: Two, lhs: u64, rhs: u64) -> Result<u64, Refusal>
    ensures { Called (on_pool (on_two op lhs rhs)) lent.old (numbered result) lent.new }
{
    let mut pool = Pool::empty();
    lent.take_in(&mut pool)?;
    lent::both_given(pool.count as u64, lhs, rhs)?;
    let made = two_in(&mut pool, op, lhs as u32, rhs as u32);
    lent.finish(&pool, made)
}

// `SymGenFunKind::add`.
pub fn add(lent: &mut Lent<'_>, lhs: u64, rhs: u64) -> Result<u64, Refusal>
    ensures { Called (on_pool (given_nodes (lhs ∷ rhs ∷ []) ((calls depth).add_at lhs rhs))) lent.old (numbered result) lent.new }
{
    on_two(lent, Two::Add, lhs, rhs)
}

// `SymGenFunKind::mul`.
pub fn mul(lent: &mut Lent<'_>, lhs: u64, rhs: u64) -> Result<u64, Refusal>
    ensures { Called (on_pool (given_nodes (lhs ∷ rhs ∷ []) ((calls depth).mul_at lhs rhs))) lent.old (numbered result) lent.new }
{
    on_two(lent, Two::Mul, lhs, rhs)
}

// `SymGenFunKind::div`.
pub fn div(lent: &mut Lent<'_>, lhs: u64, rhs: u64) -> Result<u64, Refusal>
    ensures { Called (on_pool (given_nodes (lhs ∷ rhs ∷ []) ((calls depth).div_at lhs rhs))) lent.old (numbered result) lent.new }
{
    on_two(lent, Two::Div, lhs, rhs)
}

// `SymGenFunKind::max`.
pub fn max(lent: &mut Lent<'_>, lhs: u64, rhs: u64) -> Result<u64, Refusal>
    ensures { Called (on_pool (given_nodes (lhs ∷ rhs ∷ []) ((calls depth).max_at lhs rhs))) lent.old (numbered result) lent.new }
{
    on_two(lent, Two::Max, lhs, rhs)
}
