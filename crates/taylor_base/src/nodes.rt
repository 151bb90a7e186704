// The literals and differences that the operations on expansions make.
ghost use Rattle.std.specs.Prelude.{◌≡◌};
ghost use Rattle.pool.specs.Made.{made};
ghost use Rattle.pool.specs.Room.{room_of, RoomKept};
ghost use Rattle.taylor.specs.Work.{from, sub};

use constructors::DEPTH;
use pool::Pool;
use refusals::Refusal;

// T::from(n): a new literal.
pub fn from_in(pool: &mut Pool, n: u32) -> Result<u32, Refusal>
    ensures is { made result pool.new ≡ from n pool.old }
    ensures room { RoomKept result (room_of pool.old) pool.new }
{
    adds::lit_in(pool, literal::fold(n as i64))
}

// lhs + (-rhs)
pub fn sub_nodes(pool: &mut Pool, lhs: u32, rhs: u32) -> Result<u32, Refusal>
    ensures is { made result pool.new ≡ sub lhs rhs pool.old }
    ensures room { RoomKept result (room_of pool.old) pool.new }
{
    let room = pool.room();
    let made = sub_unsettled(pool, lhs, rhs);
    pool.settle(room, made)
}

// The same, but after a refusal the negative may be there.
fn sub_unsettled(pool: &mut Pool, lhs: u32, rhs: u32) -> Result<u32, Refusal>
    ensures { made result pool.new ≡ sub lhs rhs pool.old }
{
    let negative = muls::neg_in(pool, DEPTH, rhs)?;
    adds::add_in(pool, DEPTH, lhs, negative)
}
