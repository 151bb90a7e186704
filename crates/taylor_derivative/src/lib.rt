// `derivative` of an expansion: a factorial times a coefficient.
#![tactic(auto)]

ghost use Rattle.std.specs.Prelude.{◌≡◌, ◌<◌, length};
ghost use Rattle.pool.specs.Made.{made};
ghost use Rattle.pool.specs.Room.{room_of, RoomKept};
ghost use Rattle.taylor.specs.Expansion.{derivative};
ghost use Rattle.taylor_base.specs.Entries.{HasIndex};
ghost use Rattle.taylor_derivative.specs.Factorials.{factor, derivative_of};

use constructors::DEPTH;
use pool::Pool;
use refusals::Refusal;
use taylor::{Coefficients, Expansion};
use taylor_base::{coeff_in, fold_in, from_in};

// Up to this number the product is the number itself: the product before it is 1.
const ITSELF: u32 = 2;

// The literal i, and the product of the numbers up to it.
fn factor_in(pool: &mut Pool, i: u32) -> Result<u32, Refusal>
    ensures { made result pool.new ≡ factor 0 i pool.old }
{
    let number = from_in(pool, i)?;
    if i <= ITSELF {
        return Ok(number);
    }
    adds::lit_in(pool, factorial::factorial(i as u64))
}

// Of a list: k! times coefficient k. The literals that the source's fold makes on the way to k! are made too.
fn derivative_list(pool: &mut Pool, list: &Coefficients, k: u64) -> Result<u32, Refusal>
    requires { k < length list.now }
    ensures { made result pool.new ≡ derivative_of list.now k pool.old }
{
    // Nothing is done with the length. It is asked for the proof alone: `len` promises at most 25, by which the check knows that k fits.
    let _ = list.len();
    let order = k as u32;
    let one = from_in(pool, 1)?;
    let product = fold_in(pool, 1, order, one, |pool, _, i| factor_in(pool, i))?;
    muls::mul_in(pool, DEPTH, product, list.at(order))
}

// The k-th derivative; any positive one of a constant is a new literal 0.
pub fn derivative_in(pool: &mut Pool, e: &Expansion, k: u64) -> Result<u32, Refusal>
    requires { HasIndex e.now k }
    ensures is { made result pool.new ≡ derivative e.now k pool.old }
    ensures room { RoomKept result (room_of pool.old) pool.new }
{
    let room = pool.room();
    let made = derivative_unsettled(pool, e, k);
    pool.settle(room, made)
}

// The same, but after a refusal the count may have moved.
#[tactic(auto, using(crate::proofs::Factorials::derivative_is))]
fn derivative_unsettled(pool: &mut Pool, e: &Expansion, k: u64) -> Result<u32, Refusal>
    requires { HasIndex e.now k }
    ensures { made result pool.new ≡ derivative e.now k pool.old }
{
    match e {
        // A constant has its derivatives where it has its coefficients.
        Expansion::Constant(_) => coeff_in(pool, e, k),
        Expansion::Polynomial(list) => {
            // Nothing is done with what is read. Each table is read for the proof alone, which then knows how long it is, and so that a new literal has a place in it.
            let _ = pool.kinds[0];
            let _ = pool.words[0];
            derivative_list(pool, list, k)
        }
    }
}
