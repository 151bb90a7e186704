// The exponential of an expansion.
ghost use Rattle.std.specs.Prelude.{◌≡◌};
ghost use Rattle.pool.specs.Made.{made};
ghost use Rattle.pool.specs.Room.{room_of, RoomKept};
ghost use Rattle.taylor.specs.Expansion.{exponential};

use crate::coefficient::exp_at;
use constructors::DEPTH;
use pool::Pool;
use refusals::Refusal;
use taylor::Expansion;
use taylor_base::{fill_in, from_in};

// exp e. `log_in` has the same form with another constructor and recurrence; one function that takes both as closures would be no plainer: its contract, which
// holds of any work of either, would be longer than the lines that are shared.
pub fn exp_in(pool: &mut Pool, e: &Expansion) -> Result<Expansion, Refusal>
    ensures is { made result pool.new ≡ exponential e.now pool.old }
    ensures room { RoomKept result (room_of pool.old) pool.new }
{
    let room = pool.room();
    let made = exp_unsettled(pool, e);
    pool.settle(room, made)
}

// The same, but after a refusal the count may have moved.
fn exp_unsettled(pool: &mut Pool, e: &Expansion) -> Result<Expansion, Refusal>
    ensures { made result pool.new ≡ exponential e.now pool.old }
{
    match e {
        Expansion::Constant(c) => Ok(Expansion::Constant(muls::exp_in(pool, DEPTH, *c)?)),
        Expansion::Polynomial(us) => {
            let zero = from_in(pool, 0)?;
            let first = muls::exp_in(pool, DEPTH, us.at(0))?;
            let list = fill_in(
                pool,
                first,
                us.len(),
                |pool, res, k| exp_at(pool, zero, us, res, k),
            )?;
            Ok(Expansion::Polynomial(list))
        }
    }
}
