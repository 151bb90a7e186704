// The logarithm of an expansion.
ghost use Rattle.std.specs.Prelude.{◌≡◌};
ghost use Rattle.pool.specs.Made.{made};
ghost use Rattle.pool.specs.Room.{room_of, RoomKept};
ghost use Rattle.taylor.specs.Expansion.{logarithm};

use crate::coefficient::log_at;
use constructors::DEPTH;
use pool::Pool;
use refusals::Refusal;
use taylor::Expansion;
use taylor_base::{fill_in, from_in};

// log e, in the form of `exp_in`
pub fn log_in(pool: &mut Pool, e: &Expansion) -> Result<Expansion, Refusal>
    ensures is { made result pool.new ≡ logarithm e.now pool.old }
    ensures room { RoomKept result (room_of pool.old) pool.new }
{
    let room = pool.room();
    let made = log_unsettled(pool, e);
    pool.settle(room, made)
}

// The same, but after a refusal the count may have moved.
fn log_unsettled(pool: &mut Pool, e: &Expansion) -> Result<Expansion, Refusal>
    ensures { made result pool.new ≡ logarithm e.now pool.old }
{
    match e {
        Expansion::Constant(c) => Ok(Expansion::Constant(logs::log_in(pool, DEPTH, *c)?)),
        Expansion::Polynomial(us) => {
            let zero = from_in(pool, 0)?;
            let first = logs::log_in(pool, DEPTH, us.at(0))?;
            let list = fill_in(
                pool,
                first,
                us.len(),
                |pool, res, k| log_at(pool, zero, us, res, k),
            )?;
            Ok(Expansion::Polynomial(list))
        }
    }
}
