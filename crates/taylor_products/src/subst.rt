// One expansion substituted into another, by Horner's method.
ghost use Rattle.std.specs.Prelude.{◌≡◌, reverse};
ghost use Rattle.pool.specs.Made.{made};
ghost use Rattle.pool.specs.Room.{room_of, RoomKept};
ghost use Rattle.taylor.specs.Expansion.{horner, subst};
ghost use Rattle.taylor.specs.declared.expansion.Expansion.TheVariants.{Constant};
ghost use Rattle.taylor_products.specs.Powers.{horner_step};

use crate::product::times_unsettled;
use pool::Pool;
use refusals::Refusal;
use taylor::{Coefficients, Expansion};

// res * inner + c
fn step_in(
    pool: &mut Pool,
    res: &Expansion,
    inner: &Expansion,
    c: u32,
) -> Result<Expansion, Refusal>
    ensures { made result pool.new ≡ horner_step inner.now c res.now pool.old }
{
    let product = times_unsettled(pool, res, inner)?;
    taylor_base::add_in(pool, &product, &Expansion::Constant(c))
}

// All coefficients of a list, the last first.
#[tactic(auto, using(crate::proofs::Hornering::turns))]
fn horner_in(
    pool: &mut Pool,
    zero: u32,
    outer: &Coefficients,
    inner: &Expansion,
) -> Result<Expansion, Refusal>
    ensures { made result pool.new ≡ horner inner.now (reverse outer.now) (Constant zero) pool.old }
{
    let mut res = Expansion::Constant(zero);
    for i in (0..outer.len()).rev() {
        res = step_in(pool, &res, inner, outer.at(i))?;
    }
    Ok(res)
}

// outer with inner for its variable
pub fn subst_in(pool: &mut Pool, outer: &Expansion, inner: &Expansion) -> Result<Expansion, Refusal>
    ensures is { made result pool.new ≡ subst outer.now inner.now pool.old }
    ensures room { RoomKept result (room_of pool.old) pool.new }
{
    let room = pool.room();
    let made = subst_unsettled(pool, outer, inner);
    pool.settle(room, made)
}

// The same, but after a refusal the count may have moved.
fn subst_unsettled(
    pool: &mut Pool,
    outer: &Expansion,
    inner: &Expansion,
) -> Result<Expansion, Refusal>
    ensures { made result pool.new ≡ subst outer.now inner.now pool.old }
{
    match outer {
        Expansion::Constant(c) => Ok(Expansion::Constant(*c)),
        Expansion::Polynomial(list) => {
            let zero = taylor_base::from_in(pool, 0)?;
            horner_in(pool, zero, list, inner)
        }
    }
}
