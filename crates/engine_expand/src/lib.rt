// `taylor_coeffs` and `taylor_coeffs_at` as calls from outside.
#![tactic(auto)]

ghost use Rattle.std.specs.Prelude.{◌≡◌, Some, None};
ghost use Rattle.refusals.specs.Refusals.{not_literal};
ghost use Rattle.refusals.specs.Numbers.{numbered};
ghost use Rattle.taylor.specs.Expand.{is_point};
ghost use Rattle.lent.specs.Lent.{demanded};
ghost use Rattle.lent.specs.Call.{Called};
ghost use Rattle.lent_series.specs.Call.{series_on_pool};
ghost use Rattle.engine_expand.specs.Expressions.{expand_work};

use lent::Lent;
use lent_series::Series;
use pool::Pool;
use refusals::Refusal;
use taylor::TERMS;

// 4, where the point is outside the literal range.
fn point_given(point: Option<i64>) -> Result<(), Refusal>
    ensures { numbered result ≡ demanded (is_point point) not_literal }
{
    lent::demanded(expand::is_point(point), Refusal::NotLiteral)
}

// 1 to 5, then the walk. Why no function is passed the work in place of this frame stands in crates/engine/src/one.rt.
#[tactic(auto, using(crate::proofs::Growing::expand_appended))]
fn on_expression(
    lent: &mut Lent<'_>,
    root: u64,
    var: u64,
    point: Option<i64>,
    order: u64,
) -> Result<Series, Refusal>
    ensures { Called (series_on_pool (expand_work root var point order)) lent.old (numbered result) lent.new }
{
    let mut pool = Pool::empty();
    lent.take_in(&mut pool)?;
    lent::one_given(pool.count as u64, root)?;
    lent::variable_given(var)?;
    point_given(point)?;
    lent_series::order_given(order < TERMS as u64)?;
    let result = expand::expand_in(&mut pool, root as u32, var as u32, point, order as u32);
    lent_series::finish(lent, &pool, result)
}

// The expansion of an expression at the variable itself.
pub fn coeffs(lent: &mut Lent<'_>, root: u64, var: u64, order: u64) -> Result<Series, Refusal>
    ensures { Called (series_on_pool (expand_work root var None order)) lent.old (numbered result) lent.new }
{
    on_expression(lent, root, var, None, order)
}

// The expansion of an expression at a point.
pub fn coeffs_at(
    lent: &mut Lent<'_>,
    root: u64,
    var: u64,
    z: i64,
    order: u64,
) -> Result<Series, Refusal>
    ensures { Called (series_on_pool (expand_work root var (Some z) order)) lent.old (numbered result) lent.new }
{
    on_expression(lent, root, var, Some(z), order)
}
