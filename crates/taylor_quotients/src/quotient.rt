// The quotient of two expansions.
ghost use Rattle.std.specs.Prelude.{◌≡◌};
ghost use Rattle.pool.specs.Made.{made};
ghost use Rattle.pool.specs.Room.{room_of, RoomKept};
ghost use Rattle.taylor.specs.Expansion.{quotient};
ghost use Rattle.taylor.specs.declared.expansion.Expansion.TheVariants.{Constant, Polynomial};

use crate::coefficient::quotient_at;
use constructors::DEPTH;
use pool::Pool;
use refusals::Refusal;
use taylor::{Coefficients, Expansion};
use taylor_base::{each_in, fill_in, from_in};

// c / ws, with the scale 1 / ws[0]. Each coefficient but the first starts at a zero. A list over a list starts each at its own coefficient, and its coefficient
// 0 is the scale times us[0], the other way round than here, so each has its function.
fn constant_over(pool: &mut Pool, c: u32, ws: &Coefficients) -> Result<Expansion, Refusal>
    ensures { made result pool.new ≡ quotient (Constant c) (Polynomial ws.now) pool.old }
{
    let zero = from_in(pool, 0)?;
    let one = from_in(pool, 1)?;
    let scale = logs::div_in(pool, DEPTH, one, ws.at(0))?;
    let first = muls::mul_in(pool, DEPTH, c, scale)?;
    let list = fill_in(
        pool,
        first,
        ws.len(),
        |pool, res, k| quotient_at(pool, zero, scale, ws, res, k),
    )?;
    Ok(Expansion::Polynomial(list))
}

// us / ws, up to the shorter length, with the scale 1 / ws[0]. No coefficient has the zero: the source makes it, so its node stands in the pool too.
fn list_over(pool: &mut Pool, us: &Coefficients, ws: &Coefficients) -> Result<Expansion, Refusal>
    ensures { made result pool.new ≡ quotient (Polynomial us.now) (Polynomial ws.now) pool.old }
{
    let shorter = us.len().min(ws.len());
    let _zero = from_in(pool, 0)?;
    let one = from_in(pool, 1)?;
    let scale = logs::div_in(pool, DEPTH, one, ws.at(0))?;
    let first = muls::mul_in(pool, DEPTH, scale, us.at(0))?;
    let list = fill_in(
        pool,
        first,
        shorter,
        |pool, res, k| quotient_at(pool, us.at(k), scale, ws, res, k),
    )?;
    Ok(Expansion::Polynomial(list))
}

// lhs / rhs
pub fn quotient_in(pool: &mut Pool, lhs: &Expansion, rhs: &Expansion) -> Result<Expansion, Refusal>
    ensures is { made result pool.new ≡ quotient lhs.now rhs.now pool.old }
    ensures room { RoomKept result (room_of pool.old) pool.new }
{
    let room = pool.room();
    let made = quotient_unsettled(pool, lhs, rhs);
    pool.settle(room, made)
}

// The same, but after a refusal the count may have moved.
fn quotient_unsettled(
    pool: &mut Pool,
    lhs: &Expansion,
    rhs: &Expansion,
) -> Result<Expansion, Refusal>
    ensures { made result pool.new ≡ quotient lhs.now rhs.now pool.old }
{
    match (lhs, rhs) {
        (Expansion::Constant(l), Expansion::Constant(r)) => {
            Ok(Expansion::Constant(logs::div_in(pool, DEPTH, *l, *r)?))
        }
        (Expansion::Polynomial(us), Expansion::Constant(r)) => {
            let list = each_in(pool, us, |pool, u| logs::div_in(pool, DEPTH, u, *r))?;
            Ok(Expansion::Polynomial(list))
        }
        (Expansion::Constant(l), Expansion::Polynomial(ws)) => constant_over(pool, *l, ws),
        (Expansion::Polynomial(us), Expansion::Polynomial(ws)) => list_over(pool, us, ws),
    }
}
