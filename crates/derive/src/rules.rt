// What is made of the parts of a node and their derivatives, by its kind.
ghost use Rattle.std.specs.Prelude.{◌≡◌, cond, List, Option, ℕ, eqb, pos};
ghost use Rattle.pool.specs.Made.{made};
ghost use Rattle.walks.specs.Walk.{state, lifted};
ghost use Rattle.walks.specs.Derive.{lit};
ghost use Rattle.derive.specs.Rules.{product_rule, power_rule, rule_two, rule_one};

use constructors::DEPTH;
use pool::Pool;
use refusals::Refusal;

// The kinds of nodes with two parts that have a derivative. The constructors' `Two` has Max as well, and would want an arm that is never taken.
#[derive(Clone, Copy)]
pub enum Two {
    Add,
    Mul,
    Div,
}

// The kinds of nodes with one part. The constructors' `One` has Neg as well, which is no kind of node.
#[derive(Clone, Copy)]
pub enum One {
    Exp,
    Log,
    Pow(u32),
}

// if v == var { 1 } else { 0 }
pub fn slope(v: u32, var: u32) -> i64
    ensures { result ≡ cond (eqb v var) (pos 1) (pos 0) }
{
    if v == var {
        return 1;
    }
    0
}

// lit(z)
pub fn lit_rule(pool: &mut Pool, z: i64) -> Result<u32, Refusal>
    ensures { (kept : List (Option ℕ)) → lifted kept (made result pool.new) ≡ lit z (state pool.old kept) }
{
    adds::lit_in(pool, literal::fold(z))
}

// x = mul(a, db); y = mul(b, da); add(x, y)
fn product_rule(pool: &mut Pool, a: u32, b: u32, da: u32, db: u32) -> Result<u32, Refusal>
    ensures { (kept : List (Option ℕ)) → lifted kept (made result pool.new) ≡ product_rule a b da db (state pool.old kept) }
{
    let x = muls::mul_in(pool, DEPTH, a, db)?;
    let y = muls::mul_in(pool, DEPTH, b, da)?;
    adds::add_in(pool, DEPTH, x, y)
}

// p = pow(a, exp - 1); tmp = lit(exp); tmp = mul(tmp, da); mul(tmp, p)
fn power_rule(pool: &mut Pool, a: u32, exp: u32, da: u32) -> Result<u32, Refusal>
    ensures { (kept : List (Option ℕ)) → lifted kept (made result pool.new) ≡ power_rule a exp da (state pool.old kept) }
{
    let p = muls::pow_in(pool, DEPTH, a, exp.saturating_sub(1))?;
    let n = lit_rule(pool, exp as i64)?;
    let t = muls::mul_in(pool, DEPTH, n, da)?;
    muls::mul_in(pool, DEPTH, t, p)
}

// The rule of a node of two parts. It is never put into the walk, nor is the next: a level of the walk would then have the room that the constructors keep, and
// take more of the stack.
#[inline(never)]
pub fn rule_two(pool: &mut Pool, op: Two, a: u32, b: u32, da: u32, db: u32) -> Result<u32, Refusal>
    ensures { (kept : List (Option ℕ)) → lifted kept (made result pool.new) ≡ rule_two op a b da db (state pool.old kept) }
{
    match op {
        Two::Add => adds::add_in(pool, DEPTH, da, db),
        Two::Mul => product_rule(pool, a, b, da, db),
        Two::Div => crate::quotient::quotient_rule(pool, a, b, da, db),
    }
}

// The rule of a node of one part.
#[inline(never)]
pub fn rule_one(pool: &mut Pool, op: One, term: u32, a: u32, da: u32) -> Result<u32, Refusal>
    ensures { (kept : List (Option ℕ)) → lifted kept (made result pool.new) ≡ rule_one op term a da (state pool.old kept) }
{
    match op {
        One::Exp => muls::mul_in(pool, DEPTH, da, term),
        One::Log => logs::div_in(pool, DEPTH, da, a),
        One::Pow(e) => power_rule(pool, a, e, da),
    }
}
