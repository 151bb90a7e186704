// The constructors of one node.
ghost use Rattle.std.specs.Prelude.{◌≡◌, [], ◌∷◌};
ghost use Rattle.refusals.specs.Numbers.{numbered};
ghost use Rattle.constructors.specs.Build.{calls, depth};
ghost use Rattle.lent.specs.Call.{Called, on_pool, given_nodes};
ghost use Rattle.engine.specs.Build.{on_one};

use constructor_calls::{One, one_in};
use lent::Lent;
use pool::Pool;
use refusals::Refusal;

// 1 and 2, then the work. A function that is passed the work was tried in place of these five lines, here and in the calls of engine_* that append. As a closure: no
// definition can be picked from what it has captured, so each call proves by hand that whatever it returns is the definition's and only appends. As a trait: each
// operation is then a type with an impl, which is longer.
#[tactic(auto, using(crate::proofs::Growing::one_appended))]
fn on_one(lent: &mut Lent<'_>, op: One, arg: u64) -> Result<u64, Refusal>
    ensures { Called (on_pool (on_one op arg)) lent.old (numbered result) lent.new }
{
    let mut pool = Pool::empty();
    lent.take_in(&mut pool)?;
    lent::one_given(pool.count as u64, arg)?;
    let made = one_in(&mut pool, op, arg as u32);
    lent.finish(&pool, made)
}

// `SymGenFunKind::neg`.
pub fn neg(lent: &mut Lent<'_>, arg: u64) -> Result<u64, Refusal>
    ensures { Called (on_pool (given_nodes (arg ∷ []) ((calls depth).neg_at arg))) lent.old (numbered result) lent.new }
{
    on_one(lent, One::Neg, arg)
}

// `SymGenFunKind::exp`.
pub fn exp(lent: &mut Lent<'_>, arg: u64) -> Result<u64, Refusal>
    ensures { Called (on_pool (given_nodes (arg ∷ []) ((calls depth).exp_at arg))) lent.old (numbered result) lent.new }
{
    on_one(lent, One::Exp, arg)
}

// `SymGenFunKind::log`.
pub fn log(lent: &mut Lent<'_>, arg: u64) -> Result<u64, Refusal>
    ensures { Called (on_pool (given_nodes (arg ∷ []) ((calls depth).log_at arg))) lent.old (numbered result) lent.new }
{
    on_one(lent, One::Log, arg)
}

// `SymGenFunKind::pow`.
pub fn pow(lent: &mut Lent<'_>, base: u64, exp: u32) -> Result<u64, Refusal>
    ensures { Called (on_pool (given_nodes (base ∷ []) ((calls depth).pow_at base exp))) lent.old (numbered result) lent.new }
{
    on_one(lent, One::Pow(exp), base)
}
