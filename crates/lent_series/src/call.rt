// The end of a call that gives an expansion.
ghost use Rattle.std.specs.Prelude.{◌≡◌, true};
ghost use Rattle.refusals.specs.Refusals.{wrong_order};
ghost use Rattle.refusals.specs.Numbers.{numbered};
ghost use Rattle.pool.specs.Pool.{is_pool};
ghost use Rattle.pool.specs.Made.{made};
ghost use Rattle.lent.specs.Lent.{demanded};
ghost use Rattle.lent.specs.Call.{leaves_of, on_lent, Appended, Called};
ghost use Rattle.lent_series.specs.Call.{accepted, refused_outcome};

use crate::series::Series;
use lent::Lent;
use pool::Pool;
use refusals::Refusal;
use taylor::Expansion;

// 5, where an order, a length or an index does not fit.
pub fn order_given(fits: bool) -> Result<(), Refusal>
    ensures { numbered result ≡ demanded fits wrong_order }
{
    lent::demanded(fits, Refusal::WrongOrder)
}

// After the work: what an accepted call has appended is put back, a refusal leaves all as it was. `Lent::finish` does the same for a node, and says why there are two.
pub fn finish(
    lent: &mut Lent<'_>,
    pool: &Pool,
    res: Result<Expansion, Refusal>,
) -> Result<Series, Refusal>
    requires count_value { on_lent is_pool lent.old ≡ true }
    requires appended { Appended lent.old.kinds.now lent.old.words.now lent.old.count.now (made res pool.now) }
    ensures { Called (leaves_of accepted refused_outcome (made res pool.now)) lent.old (numbered result) lent.new }
{
    let e = res?;
    lent.put_back(pool);
    Ok(Series::from(e))
}
