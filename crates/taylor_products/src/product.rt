// The product of two expansions.
ghost use Rattle.std.specs.Prelude.{◌≡◌, ◌≤◌, ◌<◌, [], length, min};
ghost use Rattle.pool.specs.Made.{made};
ghost use Rattle.pool.specs.Room.{room_of, RoomKept};
ghost use Rattle.taylor.specs.Coefficients.{terms};
ghost use Rattle.taylor.specs.Work.{fill};
ghost use Rattle.taylor.specs.Expansion.{product_term, product_at, times};

use constructors::DEPTH;
use pool::Pool;
use refusals::Refusal;
use taylor::{Coefficients, Expansion};
use taylor_base::{each_in, fill_in, fold_in, from_in};

// sum + us[j] * ws[k - j]. A quotient has a function of its own (`quotient_term`): it takes the product away, by `sub_nodes`, which makes the negative first.
fn product_term(
    pool: &mut Pool,
    us: &Coefficients,
    ws: &Coefficients,
    k: u32,
    sum: u32,
    j: u32,
) -> Result<u32, Refusal>
    requires { j ≤ k }
    ensures { made result pool.new ≡ product_term us.now ws.now k sum j pool.old }
{
    let product = muls::mul_in(pool, DEPTH, us.at(j), ws.at(k - j))?;
    adds::add_in(pool, DEPTH, sum, product)
}

// us[0] * ws[k] + .. + us[k] * ws[0]
fn product_at(
    pool: &mut Pool,
    us: &Coefficients,
    ws: &Coefficients,
    zero: u32,
    k: u32,
) -> Result<u32, Refusal>
    requires { k < terms }
    ensures { made result pool.new ≡ product_at us.now ws.now zero [] k pool.old }
{
    fold_in(
        pool,
        0,
        k + 1,
        zero,
        |pool, sum, j| product_term(pool, us, ws, k, sum, j),
    )
}

// The coefficients of the product of two lists, up to the shorter length.
fn products_in(
    pool: &mut Pool,
    us: &Coefficients,
    ws: &Coefficients,
    zero: u32,
) -> Result<Coefficients, Refusal>
    ensures { made result pool.new ≡ fill (product_at us.now ws.now zero) (min (length us.now) (length ws.now)) [] pool.old }
{
    let n = us.len().min(ws.len());
    let first = product_at(pool, us, ws, zero, 0)?;
    fill_in(
        pool,
        first,
        n,
        |pool, _, k| product_at(pool, us, ws, zero, k),
    )
}

// lhs * rhs
pub fn times_in(pool: &mut Pool, lhs: &Expansion, rhs: &Expansion) -> Result<Expansion, Refusal>
    ensures is { made result pool.new ≡ times lhs.now rhs.now pool.old }
    ensures room { RoomKept result (room_of pool.old) pool.new }
{
    let room = pool.room();
    let made = times_unsettled(pool, lhs, rhs);
    pool.settle(room, made)
}

// The same, but after a refusal the count may have moved.
#[tactic(auto, unfolding(taylor::specs::Expansion::times))]
pub fn times_unsettled(
    pool: &mut Pool,
    lhs: &Expansion,
    rhs: &Expansion,
) -> Result<Expansion, Refusal>
    ensures { made result pool.new ≡ times lhs.now rhs.now pool.old }
{
    match (lhs, rhs) {
        (Expansion::Constant(l), Expansion::Constant(r)) => {
            Ok(Expansion::Constant(muls::mul_in(pool, DEPTH, *l, *r)?))
        }
        (Expansion::Constant(l), Expansion::Polynomial(ws)) => {
            let products = each_in(pool, ws, |pool, w| muls::mul_in(pool, DEPTH, w, *l))?;
            Ok(Expansion::Polynomial(products))
        }
        (Expansion::Polynomial(us), Expansion::Constant(r)) => {
            let products = each_in(pool, us, |pool, u| muls::mul_in(pool, DEPTH, u, *r))?;
            Ok(Expansion::Polynomial(products))
        }
        (Expansion::Polynomial(us), Expansion::Polynomial(ws)) => {
            let zero = from_in(pool, 0)?;
            Ok(Expansion::Polynomial(products_in(pool, us, ws, zero)?))
        }
    }
}
