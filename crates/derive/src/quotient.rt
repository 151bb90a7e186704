// The rule of a quotient, by itself, so that it can be exchanged.
ghost use Rattle.std.specs.Prelude.{◌≡◌, List, Option, ℕ};
ghost use Rattle.pool.specs.Made.{made};
ghost use Rattle.walks.specs.Walk.{state, lifted};
ghost use Rattle.walks.specs.Derive.{quotient_rule};

use constructors::DEPTH;
use pool::Pool;
use refusals::Refusal;

// x = mul(a, db); y = mul(b, da); b2 = pow(b, 2); div(add(x, neg(y)), b2)
pub fn quotient_rule(pool: &mut Pool, a: u32, b: u32, da: u32, db: u32) -> Result<u32, Refusal>
    ensures { (kept : List (Option ℕ)) → lifted kept (made result pool.new) ≡ quotient_rule a b da db (state pool.old kept) }
{
    let x = muls::mul_in(pool, DEPTH, a, db)?;
    let y = muls::mul_in(pool, DEPTH, b, da)?;
    let b2 = muls::pow_in(pool, DEPTH, b, 2)?;
    let n = muls::neg_in(pool, DEPTH, y)?;
    let s = adds::add_in(pool, DEPTH, x, n)?;
    logs::div_in(pool, DEPTH, s, b2)
}
