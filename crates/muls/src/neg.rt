// `neg`: the product with -1.
ghost use Rattle.std.specs.Prelude.{◌≡◌};
ghost use Rattle.constructors.specs.Build.{calls};
ghost use Rattle.pool.specs.Made.{made};
ghost use Rattle.pool.specs.Room.{room_of, RoomKept};

use pool::Pool;
use refusals::Refusal;

// The negative of a node, with `left` constructors left to run inside one another.
pub fn neg_in(pool: &mut Pool, left: u32, arg: u32) -> Result<u32, Refusal>
    ensures is { made result pool.new ≡ (calls left).neg_at arg pool.old }
    ensures room { RoomKept result (room_of pool.old) pool.new }
{
    let room = pool.room();
    let made = neg_unsettled(pool, left, arg);
    pool.settle(room, made)
}

// The same, but after a refusal the literal may be there.
#[tactic(auto, using(views::proofs::Steps::runs_deeper, views::proofs::Steps::none_left), unfolding(constructors::specs::Build::build))]
fn neg_unsettled(pool: &mut Pool, left: u32, arg: u32) -> Result<u32, Refusal>
    ensures { made result pool.new ≡ (calls left).neg_at arg pool.old }
{
    if left == 0 {
        return Err(Refusal::TooDeep);
    }
    let deep = left - 1;
    let m = adds::lit_in(pool, literal::fold(-1))?;
    crate::made::mul_unsettled(pool, deep, m, arg)
}
