// Powers of an expansion, by the binary digits of the exponent.
ghost use Rattle.std.specs.Prelude.{◌≡◌};
ghost use Rattle.pool.specs.Made.{made};
ghost use Rattle.pool.specs.Room.{room_of, RoomKept};
ghost use Rattle.taylor.specs.Expansion.{pow_from, power, digits};
ghost use Rattle.taylor.specs.declared.expansion.Expansion.TheVariants.{Constant};
ghost use Rattle.taylor_products.specs.Powers.{times_if};

use crate::product::times_unsettled;
use pool::Pool;
use refusals::Refusal;
use taylor::Expansion;

// lhs * rhs where it is asked for, else lhs.
fn times_if(
    pool: &mut Pool,
    asked: bool,
    lhs: &Expansion,
    rhs: &Expansion,
) -> Result<Expansion, Refusal>
    ensures { made result pool.new ≡ times_if asked lhs.now rhs.now pool.old }
{
    if asked {
        return times_unsettled(pool, lhs, rhs);
    }
    Ok(*lhs)
}

// Each round takes a binary digit of the exponent, the lowest first. There are as many rounds as digits, which the leading zeros tell, and the square after the highest one bit is not taken.
#[tactic(auto, using(crate::proofs::Powering::ends))]
fn rounds_in(pool: &mut Pool, one: u32, base: &Expansion, exp: u32) -> Result<Expansion, Refusal>
    ensures { made result pool.new ≡ pow_from digits exp (Constant one) base.now pool.old }
{
    let mut res = Expansion::Constant(one);
    let mut square = *base;
    let mut e = exp;
    let rounds = 32 - exp.leading_zeros();
    for left in (0..rounds).rev() {
        res = times_if(pool, e % 2 == 1, &res, &square)?;
        square = times_if(pool, left > 0, &square, &square)?;
        e = e / 2;
    }
    Ok(res)
}

// base to the power exp
pub fn pow_in(pool: &mut Pool, base: &Expansion, exp: u32) -> Result<Expansion, Refusal>
    ensures is { made result pool.new ≡ power base.now exp pool.old }
    ensures room { RoomKept result (room_of pool.old) pool.new }
{
    let room = pool.room();
    let made = pow_unsettled(pool, base, exp);
    pool.settle(room, made)
}

// The same, but after a refusal the count may have moved.
fn pow_unsettled(pool: &mut Pool, base: &Expansion, exp: u32) -> Result<Expansion, Refusal>
    ensures { made result pool.new ≡ power base.now exp pool.old }
{
    let one = taylor_base::from_in(pool, 1)?;
    rounds_in(pool, one, base, exp)
}
