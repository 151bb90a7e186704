// The expansion of a variable.
ghost use Rattle.std.specs.Prelude.{◌≡◌};
ghost use Rattle.refusals.specs.Numbers.{numbered};
ghost use Rattle.lent.specs.Call.{Called};
ghost use Rattle.lent_series.specs.Call.{series_on_pool};
ghost use Rattle.engine_given.specs.Variable.{var_call};

use lent::Lent;
use lent_series::Series;
use pool::Pool;
use refusals::Refusal;
use taylor::TERMS;

// `TaylorExpansion::var` at a node: 1, 2 and 5, then the work. Why no function is passed the work in place of this frame stands in crates/engine/src/one.rt.
#[tactic(auto, using(crate::proofs::Growing::var_appended))]
pub fn var(lent: &mut Lent<'_>, x: u64, order: u64) -> Result<Series, Refusal>
    ensures { Called (series_on_pool (var_call x order)) lent.old (numbered result) lent.new }
{
    let mut pool = Pool::empty();
    lent.take_in(&mut pool)?;
    lent::one_given(pool.count as u64, x)?;
    lent_series::order_given(order < TERMS as u64)?;
    let result = taylor_base::var_in(&mut pool, x as u32, order as u32);
    lent_series::finish(lent, &pool, result)
}
