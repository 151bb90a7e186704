// A coefficient or a derivative of an expansion, by its index, as calls from outside.
#![tactic(auto)]

ghost use Rattle.std.specs.Prelude.{◌≡◌, ◌||◌, nat_lt};
ghost use Rattle.refusals.specs.Numbers.{numbered};
ghost use Rattle.pool.specs.Made.{made};
ghost use Rattle.taylor_base.specs.Entries.{HasIndex};
ghost use Rattle.lent.specs.Call.{Called, on_pool};
ghost use Rattle.lent_series.specs.Series.{is_constant};
ghost use Rattle.engine_index.specs.Indices.{indexed_work, on_index, coeff_call, derivative_call};

use lent::Lent;
use lent_series::{ENDLESS, Series};
use pool::Pool;
use refusals::Refusal;
use taylor::Expansion;

// A reading by name, since theorems speak of it so (crates/limits/specs). The work as a closure was tried: see crates/engine/src/one.rt.
#[derive(Clone, Copy)]
pub enum Indexed {
    Coeff,
    Derivative,
}

fn indexed_in(pool: &mut Pool, op: Indexed, e: &Expansion, index: u64) -> Result<u32, Refusal>
    requires { HasIndex e.now index }
    ensures { made result pool.new ≡ indexed_work op e.now index pool.old }
{
    match op {
        Indexed::Coeff => taylor_base::coeff_in(pool, e, index),
        Indexed::Derivative => taylor_derivative::derivative_in(pool, e, index),
    }
}

// Whether the index is in the list; a constant takes any.
fn index_fits(s: &Series, index: u64) -> bool
    ensures { result ≡ (is_constant s.now || nat_lt index s.now.order) }
{
    s.order == ENDLESS || index < s.order
}

// 1, 2 and 5, then the work. Why no function is passed the work in place of this frame stands in crates/engine/src/one.rt.
#[tactic(auto, using(lent_series::proofs::Numbers::nodes_fit, crate::proofs::Growing::indexed_appended))]
fn on_index(lent: &mut Lent<'_>, op: Indexed, s: Series, index: u64) -> Result<u64, Refusal>
    ensures { Called (on_pool (on_index op s index)) lent.old (numbered result) lent.new }
{
    let mut pool = Pool::empty();
    lent.take_in(&mut pool)?;
    s.nodes_given(pool.count as u64)?;
    let e = s.expansion()?;
    lent_series::order_given(index_fits(&s, index))?;
    let node = indexed_in(&mut pool, op, &e, index);
    lent.finish(&pool, node)
}

// Coefficient `index`.
pub fn coeff(lent: &mut Lent<'_>, e: Series, index: u64) -> Result<u64, Refusal>
    ensures { Called (on_pool (coeff_call e index)) lent.old (numbered result) lent.new }
{
    on_index(lent, Indexed::Coeff, e, index)
}

// The derivative of that order.
pub fn derivative(lent: &mut Lent<'_>, e: Series, index: u64) -> Result<u64, Refusal>
    ensures { Called (on_pool (derivative_call e index)) lent.old (numbered result) lent.new }
{
    on_index(lent, Indexed::Derivative, e, index)
}
