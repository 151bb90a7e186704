// `pow`, and a power whose exponent is a sum.
ghost use Rattle.std.specs.Prelude.{◌≡◌, ◌+◌};
ghost use Rattle.constructors.specs.Terms.{#, pow};
ghost use Rattle.constructors.specs.Build.{build, calls};
ghost use Rattle.pool.specs.Made.{made};
ghost use Rattle.pool.specs.Room.{room_of, RoomKept};

use pool::{Node, Pool};
use refusals::Refusal;

// The power of a node, with `left` constructors left to run inside one another. No constructor runs inside it, so `left` is only tested.
#[tactic(auto, using(views::proofs::Steps::runs_deeper, views::proofs::Steps::none_left, views::proofs::Steps::build_node, views::proofs::Steps::build_lit, views::proofs::Steps::build_pow, crate::proofs::Tables::power_zero, crate::proofs::Tables::power_one, crate::proofs::Tables::power_of_other, crate::proofs::Tables::power_of_zero, crate::proofs::Tables::power_of_one, crate::proofs::Tables::power_of_lit))]
pub fn pow_in(pool: &mut Pool, left: u32, base: u32, exp: u32) -> Result<u32, Refusal>
    ensures is { made result pool.new ≡ (calls left).pow_at base exp pool.old }
    ensures room { RoomKept result (room_of pool.old) pool.new }
{
    if left == 0 {
        return Err(Refusal::TooDeep);
    }
    if exp == 0 {
        return adds::lit_in(pool, literal::fold(1));
    }
    if exp == 1 {
        return Ok(base);
    }
    match views::literal_at(pool, base) {
        Some(a) if literal::is_zero(a) => adds::lit_in(pool, literal::fold(0)),
        Some(a) if literal::is_one(a) => adds::lit_in(pool, literal::fold(1)),
        _ => pool.append(Node::Pow(base, exp)),
    }
}

// pow(base, e1 + e2): a sum above the greatest exponent, which is the greatest u32, is refused before `pow` is entered.
#[tactic(auto, unfolding(constructors::specs::Build::build))]
pub fn pow_sum(pool: &mut Pool, left: u32, base: u32, e1: u32, e2: u32) -> Result<u32, Refusal>
    ensures { made result pool.new ≡ build (calls left) (pow (# base) (e1 + e2)) pool.old }
{
    let exp = e1.checked_add(e2).ok_or(Refusal::ExponentTooLarge)?;
    pow_in(pool, left, base, exp)
}
