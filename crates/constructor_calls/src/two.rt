// The constructors of two nodes.
ghost use Rattle.std.specs.Prelude.{◌≡◌};
ghost use Rattle.pool.specs.Made.{made};
ghost use Rattle.pool.specs.Room.{room_of, RoomKept};
ghost use Rattle.constructor_calls.specs.Calls.{two_work};

use constructors::DEPTH;
use pool::Pool;
use refusals::Refusal;

// A constructor by name, since the definitions and the entry points speak of it so: a closure in its place would state the same work at each call.
#[derive(Clone, Copy)]
pub enum Two {
    Add,
    Mul,
    Div,
    Max,
}

// It is never put into a walk: a level of the walk would then have the room that the constructors keep, and take more of the stack.
#[inline(never)]
pub fn two_in(pool: &mut Pool, op: Two, lhs: u32, rhs: u32) -> Result<u32, Refusal>
    ensures is { made result pool.new ≡ two_work op lhs rhs pool.old }
    ensures room { RoomKept result (room_of pool.old) pool.new }
{
    match op {
        Two::Add => adds::add_in(pool, DEPTH, lhs, rhs),
        Two::Mul => muls::mul_in(pool, DEPTH, lhs, rhs),
        Two::Div => logs::div_in(pool, DEPTH, lhs, rhs),
        Two::Max => logs::max_in(pool, DEPTH, lhs, rhs),
    }
}
