// The operations on two expansions.
ghost use Rattle.std.specs.Prelude.{◌≡◌, true, ◌&&◌, Ok, Err};
ghost use Rattle.refusals.specs.Refusals.{unknown_node, wrong_order};
ghost use Rattle.refusals.specs.Demand.{demand};
ghost use Rattle.pool.specs.Pool.{limit};
ghost use Rattle.pool.specs.Nodes.{all_below};
ghost use Rattle.lent.specs.Lent.{demanded};
ghost use Rattle.refusals.specs.Numbers.{numbered};
ghost use Rattle.pool.specs.Made.{made};
ghost use Rattle.lent.specs.Call.{Called};
ghost use Rattle.lent_series.specs.Series.{nodes_of, length_ok, given};
ghost use Rattle.lent_series.specs.Call.{series_on_pool};
ghost use Rattle.engine_pairs.specs.Pairs.{binary_work, agree, lengths_ok, on_expansions, add_call, sub_call, mul_call, div_call, max_call, subst_call};

use lent::Lent;
use lent_series::{ENDLESS, Series};
use pool::Pool;
use refusals::Refusal;
use taylor::Expansion;

// An operation by name, since theorems speak of it so (crates/limits/specs). The work as a closure was tried: see crates/engine/src/one.rt.
#[derive(Clone, Copy)]
pub enum Binary {
    Add,
    Sub,
    Mul,
    Div,
    Max,
    Subst,
}

fn binary_in(
    pool: &mut Pool,
    op: Binary,
    lhs: &Expansion,
    rhs: &Expansion,
) -> Result<Expansion, Refusal>
    ensures { made result pool.new ≡ binary_work op lhs.now rhs.now pool.old }
{
    match op {
        Binary::Add => taylor_base::add_in(pool, lhs, rhs),
        Binary::Sub => taylor_base::sub_in(pool, lhs, rhs),
        Binary::Mul => taylor_products::times_in(pool, lhs, rhs),
        Binary::Div => taylor_quotients::quotient_in(pool, lhs, rhs),
        Binary::Max => taylor_base::max_in(pool, lhs, rhs),
        Binary::Subst => taylor_products::subst_in(pool, lhs, rhs),
    }
}

// Whether one of them is a constant, or both have the same length.
fn as_long(s: &Series, t: &Series) -> bool
    ensures { result ≡ agree s.now t.now }
{
    s.order == ENDLESS || t.order == ENDLESS || s.order == t.order
}

// Whether the operation takes these two lengths.
fn lengths_fit(op: Binary, s: &Series, t: &Series) -> bool
    requires { (length_ok s.now && length_ok t.now) ≡ true }
    ensures { result ≡ lengths_ok op s.now t.now }
{
    match op {
        Binary::Subst => as_long(s, t),
        _ => true,
    }
}

// The node numbers of both are below the count, or 2.
fn nodes_given(count: u64, s: &Series, t: &Series) -> Result<(), Refusal>
    ensures { numbered result ≡ demanded (all_below count (nodes_of s.now) && all_below count (nodes_of t.now)) unknown_node }
{
    s.nodes_given(count)?;
    t.nodes_given(count)
}

// The expansions that are given, where they have lengths that the operation takes, or 5.
#[tactic(auto, using(crate::proofs::Lengths::one_fails))]
fn expansions(op: Binary, s: &Series, t: &Series) -> Result<(Expansion, Expansion), Refusal>
    requires left { all_below limit (nodes_of s.now) ≡ true }
    requires right { all_below limit (nodes_of t.now) ≡ true }
    ensures { numbered result ≡ demand Err (lengths_ok op s.now t.now) wrong_order (Ok (given s.now, given t.now)) }
{
    let lhs = s.expansion()?;
    let rhs = t.expansion()?;
    lent_series::order_given(lengths_fit(op, s, t))?;
    Ok((lhs, rhs))
}

// 1, 2 and 5, then the work. Why no function is passed the work in place of this frame stands in crates/engine/src/one.rt.
#[tactic(auto, using(crate::proofs::Lengths::left_fits, crate::proofs::Lengths::right_fits, crate::proofs::Growing::binary_appended))]
fn on_two(lent: &mut Lent<'_>, op: Binary, s: Series, t: Series) -> Result<Series, Refusal>
    ensures { Called (series_on_pool (on_expansions op s t)) lent.old (numbered result) lent.new }
{
    let mut pool = Pool::empty();
    lent.take_in(&mut pool)?;
    nodes_given(pool.count as u64, &s, &t)?;
    let (lhs, rhs) = expansions(op, &s, &t)?;
    let result = binary_in(&mut pool, op, &lhs, &rhs);
    lent_series::finish(lent, &pool, result)
}

// lhs + rhs
pub fn add(lent: &mut Lent<'_>, lhs: Series, rhs: Series) -> Result<Series, Refusal>
    ensures { Called (series_on_pool (add_call lhs rhs)) lent.old (numbered result) lent.new }
{
    on_two(lent, Binary::Add, lhs, rhs)
}

// lhs - rhs
pub fn sub(lent: &mut Lent<'_>, lhs: Series, rhs: Series) -> Result<Series, Refusal>
    ensures { Called (series_on_pool (sub_call lhs rhs)) lent.old (numbered result) lent.new }
{
    on_two(lent, Binary::Sub, lhs, rhs)
}

// lhs * rhs
pub fn mul(lent: &mut Lent<'_>, lhs: Series, rhs: Series) -> Result<Series, Refusal>
    ensures { Called (series_on_pool (mul_call lhs rhs)) lent.old (numbered result) lent.new }
{
    on_two(lent, Binary::Mul, lhs, rhs)
}

// lhs / rhs
pub fn div(lent: &mut Lent<'_>, lhs: Series, rhs: Series) -> Result<Series, Refusal>
    ensures { Called (series_on_pool (div_call lhs rhs)) lent.old (numbered result) lent.new }
{
    on_two(lent, Binary::Div, lhs, rhs)
}

// What `max` makes of two constants; 10 of any list.
pub fn max(lent: &mut Lent<'_>, lhs: Series, rhs: Series) -> Result<Series, Refusal>
    ensures { Called (series_on_pool (max_call lhs rhs)) lent.old (numbered result) lent.new }
{
    on_two(lent, Binary::Max, lhs, rhs)
}

// outer with inner for its variable
pub fn subst(lent: &mut Lent<'_>, outer: Series, inner: Series) -> Result<Series, Refusal>
    ensures { Called (series_on_pool (subst_call outer inner)) lent.old (numbered result) lent.new }
{
    on_two(lent, Binary::Subst, outer, inner)
}
