// The constructors of one node.
ghost use Rattle.std.specs.Prelude.{◌≡◌};
ghost use Rattle.pool.specs.Made.{made};
ghost use Rattle.pool.specs.Room.{room_of, RoomKept};
ghost use Rattle.constructor_calls.specs.Calls.{one_work};

use constructors::DEPTH;
use pool::Pool;
use refusals::Refusal;

// A constructor by name, as `Two`.
#[derive(Clone, Copy)]
pub enum One {
    Neg,
    Exp,
    Log,
    Pow(u32),
}

// It is never put into a walk: a level of the walk would then have the room that the constructors keep, and take more of the stack.
#[inline(never)]
pub fn one_in(pool: &mut Pool, op: One, arg: u32) -> Result<u32, Refusal>
    ensures is { made result pool.new ≡ one_work op arg pool.old }
    ensures room { RoomKept result (room_of pool.old) pool.new }
{
    match op {
        One::Neg => muls::neg_in(pool, DEPTH, arg),
        One::Exp => muls::exp_in(pool, DEPTH, arg),
        One::Log => logs::log_in(pool, DEPTH, arg),
        One::Pow(exponent) => muls::pow_in(pool, DEPTH, arg, exponent),
    }
}
