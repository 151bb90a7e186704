// The operations on one expansion as calls from outside.
#![tactic(auto)]

ghost use Rattle.std.specs.Prelude.{◌≡◌};
ghost use Rattle.refusals.specs.Numbers.{numbered};
ghost use Rattle.pool.specs.Made.{made};
ghost use Rattle.lent.specs.Call.{Called};
ghost use Rattle.lent_series.specs.Call.{series_on_pool};
ghost use Rattle.engine_series.specs.Operations.{unary_work, on_expansion, neg_call, exp_call, log_call, pow_call};

use lent::Lent;
use lent_series::Series;
use pool::Pool;
use refusals::Refusal;
use taylor::Expansion;

// An operation by name, since theorems speak of it so (crates/limits/specs). The work as a closure was tried: see crates/engine/src/one.rt. The variants are those of
// `One` of constructor_calls, whose operands are nodes; here they are expansions.
#[derive(Clone, Copy)]
pub enum Unary {
    Neg,
    Exp,
    Log,
    Pow(u32),
}

fn unary_in(pool: &mut Pool, op: Unary, e: &Expansion) -> Result<Expansion, Refusal>
    ensures { made result pool.new ≡ unary_work op e.now pool.old }
{
    match op {
        Unary::Neg => taylor_base::neg_in(pool, e),
        Unary::Exp => taylor_quotients::exp_in(pool, e),
        Unary::Log => taylor_quotients::log_in(pool, e),
        Unary::Pow(exponent) => taylor_products::pow_in(pool, e, exponent),
    }
}

// 1, 2 and 5, then the work. Why no function is passed the work in place of this frame stands in crates/engine/src/one.rt.
#[tactic(auto, using(lent_series::proofs::Numbers::nodes_fit, crate::proofs::Growing::unary_appended))]
fn on_one(lent: &mut Lent<'_>, op: Unary, s: Series) -> Result<Series, Refusal>
    ensures { Called (series_on_pool (on_expansion op s)) lent.old (numbered result) lent.new }
{
    let mut pool = Pool::empty();
    lent.take_in(&mut pool)?;
    s.nodes_given(pool.count as u64)?;
    let e = s.expansion()?;
    let result = unary_in(&mut pool, op, &e);
    lent_series::finish(lent, &pool, result)
}

// -e
pub fn neg(lent: &mut Lent<'_>, e: Series) -> Result<Series, Refusal>
    ensures { Called (series_on_pool (neg_call e)) lent.old (numbered result) lent.new }
{
    on_one(lent, Unary::Neg, e)
}

// exp e
pub fn exp(lent: &mut Lent<'_>, e: Series) -> Result<Series, Refusal>
    ensures { Called (series_on_pool (exp_call e)) lent.old (numbered result) lent.new }
{
    on_one(lent, Unary::Exp, e)
}

// log e
pub fn log(lent: &mut Lent<'_>, e: Series) -> Result<Series, Refusal>
    ensures { Called (series_on_pool (log_call e)) lent.old (numbered result) lent.new }
{
    on_one(lent, Unary::Log, e)
}

// e to a power
pub fn pow(lent: &mut Lent<'_>, e: Series, exponent: u32) -> Result<Series, Refusal>
    ensures { Called (series_on_pool (pow_call e exponent)) lent.old (numbered result) lent.new }
{
    on_one(lent, Unary::Pow(exponent), e)
}
