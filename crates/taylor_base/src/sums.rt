// The operations of `TaylorExpansion` that go entry by entry: `var`, `coeff`, sums, negatives, differences, and `max` of constants.
ghost use Rattle.std.specs.Prelude.{◌≡◌, ◌<◌};
ghost use Rattle.pool.specs.Made.{made};
ghost use Rattle.pool.specs.Room.{room_of, RoomKept};
ghost use Rattle.taylor.specs.Coefficients.{terms};
ghost use Rattle.taylor.specs.Work.{each, neg};
ghost use Rattle.taylor.specs.Expansion.{var, coeff, add_to, negate, sub_from, maximum};
ghost use Rattle.taylor_base.specs.Entries.{HasIndex};
ghost use Rattle.taylor_base.specs.Sides.{constant_of, side};

use crate::loops::{each_in, pairs_in};
use crate::nodes::{from_in, sub_nodes};
use constructors::DEPTH;
use pool::Pool;
use refusals::Refusal;
use taylor::{Coefficients, Expansion};

// `TaylorExpansion::var`: the point, a one, and zeros up to the order.
pub fn var_in(pool: &mut Pool, x: u32, order: u32) -> Result<Expansion, Refusal>
    requires { order < terms }
    ensures is { made result pool.new ≡ var x order pool.old }
    ensures room { RoomKept result (room_of pool.old) pool.new }
{
    let room = pool.room();
    let made = var_unsettled(pool, x, order);
    pool.settle(room, made)
}

// The same, but after a refusal the count may have moved.
#[tactic(auto, using(crate::proofs::Variables::var_of_order))]
fn var_unsettled(pool: &mut Pool, x: u32, order: u32) -> Result<Expansion, Refusal>
    requires { order < terms }
    ensures { made result pool.new ≡ var x order pool.old }
{
    let zero = from_in(pool, 0)?;
    let mut list = Coefficients::one(x);
    if order == 0 {
        return Ok(Expansion::Polynomial(list));
    }
    let one = from_in(pool, 1)?;
    list.push(one);
    for _ in 1..order {
        list.push(zero);
    }
    Ok(Expansion::Polynomial(list))
}

// Coefficient k; any positive one of a constant is a new literal 0.
pub fn coeff_in(pool: &mut Pool, e: &Expansion, k: u64) -> Result<u32, Refusal>
    requires { HasIndex e.now k }
    ensures is { made result pool.new ≡ coeff e.now k pool.old }
    ensures room { RoomKept result (room_of pool.old) pool.new }
{
    match e {
        Expansion::Constant(c) => {
            if k == 0 {
                return Ok(*c);
            }
            from_in(pool, 0)
        }
        Expansion::Polynomial(list) => {
            // Nothing is done with the length. It is asked for the proof alone: `len` promises at most 25, by which the check knows that k fits.
            let _ = list.len();
            Ok(list.at(k as u32))
        }
    }
}

// lhs + rhs
pub fn add_in(pool: &mut Pool, lhs: &Expansion, rhs: &Expansion) -> Result<Expansion, Refusal>
    ensures is { made result pool.new ≡ add_to lhs.now rhs.now pool.old }
    ensures room { RoomKept result (room_of pool.old) pool.new }
{
    let room = pool.room();
    let made = add_unsettled(pool, lhs, rhs);
    pool.settle(room, made)
}

// The same, but after a refusal the count may have moved.
fn add_unsettled(pool: &mut Pool, lhs: &Expansion, rhs: &Expansion) -> Result<Expansion, Refusal>
    ensures { made result pool.new ≡ add_to lhs.now rhs.now pool.old }
{
    match (lhs, rhs) {
        (Expansion::Constant(l), Expansion::Constant(r)) => {
            Ok(Expansion::Constant(adds::add_in(pool, DEPTH, *l, *r)?))
        }
        (Expansion::Polynomial(us), Expansion::Constant(r)) => {
            let sum = adds::add_in(pool, DEPTH, us.first(), *r)?;
            Ok(Expansion::Polynomial(us.with_first(sum)))
        }
        (Expansion::Constant(l), Expansion::Polynomial(ws)) => {
            let sum = adds::add_in(pool, DEPTH, ws.first(), *l)?;
            Ok(Expansion::Polynomial(ws.with_first(sum)))
        }
        (Expansion::Polynomial(us), Expansion::Polynomial(ws)) => {
            let sums = pairs_in(pool, us, ws, |pool, u, w| adds::add_in(pool, DEPTH, w, u))?;
            Ok(Expansion::Polynomial(sums))
        }
    }
}

fn negatives_in(pool: &mut Pool, list: &Coefficients) -> Result<Coefficients, Refusal>
    ensures { made result pool.new ≡ each neg list.now pool.old }
{
    each_in(pool, list, |pool, u| muls::neg_in(pool, DEPTH, u))
}

// -e
pub fn neg_in(pool: &mut Pool, e: &Expansion) -> Result<Expansion, Refusal>
    ensures is { made result pool.new ≡ negate e.now pool.old }
    ensures room { RoomKept result (room_of pool.old) pool.new }
{
    let room = pool.room();
    let made = neg_unsettled(pool, e);
    pool.settle(room, made)
}

// The same, but after a refusal the count may have moved.
fn neg_unsettled(pool: &mut Pool, e: &Expansion) -> Result<Expansion, Refusal>
    ensures { made result pool.new ≡ negate e.now pool.old }
{
    match e {
        Expansion::Constant(c) => Ok(Expansion::Constant(muls::neg_in(pool, DEPTH, *c)?)),
        Expansion::Polynomial(list) => Ok(Expansion::Polynomial(negatives_in(pool, list)?)),
    }
}

// lhs - rhs. Of a constant less a list all negatives come first, then the sum with coefficient 0.
pub fn sub_in(pool: &mut Pool, lhs: &Expansion, rhs: &Expansion) -> Result<Expansion, Refusal>
    ensures is { made result pool.new ≡ sub_from lhs.now rhs.now pool.old }
    ensures room { RoomKept result (room_of pool.old) pool.new }
{
    let room = pool.room();
    let made = sub_unsettled(pool, lhs, rhs);
    pool.settle(room, made)
}

// The same, but after a refusal the count may have moved.
fn sub_unsettled(pool: &mut Pool, lhs: &Expansion, rhs: &Expansion) -> Result<Expansion, Refusal>
    ensures { made result pool.new ≡ sub_from lhs.now rhs.now pool.old }
{
    match (lhs, rhs) {
        (Expansion::Constant(l), Expansion::Constant(r)) => {
            Ok(Expansion::Constant(sub_nodes(pool, *l, *r)?))
        }
        (Expansion::Polynomial(us), Expansion::Constant(r)) => {
            let difference = sub_nodes(pool, us.first(), *r)?;
            Ok(Expansion::Polynomial(us.with_first(difference)))
        }
        (Expansion::Constant(l), Expansion::Polynomial(ws)) => {
            let negatives = negatives_in(pool, ws)?;
            let sum = adds::add_in(pool, DEPTH, negatives.first(), *l)?;
            Ok(Expansion::Polynomial(negatives.with_first(sum)))
        }
        (Expansion::Polynomial(us), Expansion::Polynomial(ws)) => {
            Ok(Expansion::Polynomial(pairs_in(pool, us, ws, sub_nodes)?))
        }
    }
}

// The constant that an expansion is; a list is none.
fn constant_of(e: &Expansion) -> Option<u32>
    ensures { result ≡ constant_of e.now }
{
    match e {
        Expansion::Constant(c) => Some(*c),
        Expansion::Polynomial(_) => None,
    }
}

// What `max` makes of two sides, each given by its constant; `MaxReached` where one has none. So whoever holds a list need make no `Coefficients` of it, which
// would have to have 1 to 25 entries.
pub fn max_of(pool: &mut Pool, lhs: Option<u32>, rhs: Option<u32>) -> Result<Expansion, Refusal>
    ensures is { made result pool.new ≡ maximum (side lhs) (side rhs) pool.old }
    ensures room { RoomKept result (room_of pool.old) pool.new }
{
    match (lhs, rhs) {
        (Some(l), Some(r)) => Ok(Expansion::Constant(logs::max_in(pool, DEPTH, l, r)?)),
        _ => Err(Refusal::MaxReached),
    }
}

// What `max` makes of two constants; `MaxReached` of any list.
#[tactic(auto, using(crate::proofs::Sides::constants_decide))]
pub fn max_in(pool: &mut Pool, lhs: &Expansion, rhs: &Expansion) -> Result<Expansion, Refusal>
    ensures is { made result pool.new ≡ maximum lhs.now rhs.now pool.old }
    ensures room { RoomKept result (room_of pool.old) pool.new }
{
    max_of(pool, constant_of(lhs), constant_of(rhs))
}
