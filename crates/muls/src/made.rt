// `mul` and `exp` as functions of depth, which call each other: a rule is found, and what it says is built one deeper. The pool and the depth are two parameters: the
// depth falls at each call, and a struct of both would be made anew at each.
ghost use Rattle.std.specs.Prelude.{◌≡◌, ◌+◌, ◌*ℤ◌};
ghost use Rattle.constructors.specs.Terms.{#, lit, lit_exp, add, mul, exp, pow, Mul};
ghost use Rattle.constructors.specs.Build.{build, calls, no_calls};
ghost use Rattle.pool.specs.Made.{made};
ghost use Rattle.pool.specs.Room.{room_of, RoomKept};

use crate::rule::ExpRule;
use mul_rules::MulRule;
use pool::{Node, Pool};
use refusals::Refusal;

// The product of two nodes, with `left` constructors left to run inside one another.
pub fn mul_in(pool: &mut Pool, left: u32, lhs: u32, rhs: u32) -> Result<u32, Refusal>
    ensures is { made result pool.new ≡ (calls left).mul_at lhs rhs pool.old }
    ensures room { RoomKept result (room_of pool.old) pool.new }
{
    let room = pool.room();
    let made = mul_unsettled(pool, left, lhs, rhs);
    pool.settle(room, made)
}

// The same, but after a refusal the count may have moved: it is what the rules call.
#[cycle(mul_and_exp_rules)]
#[tactic(auto, using(views::proofs::Steps::runs_deeper, views::proofs::Steps::none_left, views::proofs::Steps::build_node, views::proofs::Steps::build_lit, views::proofs::Steps::build_mul, crate::proofs::Tables::build_scaled))]
pub fn mul_unsettled(pool: &mut Pool, left: u32, lhs: u32, rhs: u32) -> Result<u32, Refusal>
    ensures { made result pool.new ≡ (calls left).mul_at lhs rhs pool.old }
{
    if left == 0 {
        return Err(Refusal::TooDeep);
    }
    let deep = left - 1;
    match mul_rules::mul_rule(pool, lhs, rhs) {
        MulRule::Zero => adds::lit_in(pool, literal::fold(0)),
        MulRule::Same(a) => Ok(a),
        MulRule::ExpSum(a, b) => exp_sum(pool, deep, a, b),
        MulRule::Product(x, y) => adds::lit_in(pool, literal::product(x, y)),
        MulRule::Scaled(x, y, c) => scaled(pool, x, y, c),
        MulRule::OverExp(x, a, b) => over_exp(pool, deep, x, a, b),
        MulRule::OverExps(x, y, a, b) => over_exps(pool, deep, x, y, a, b),
        MulRule::Scales(x, y, c, d) => scales(pool, deep, x, y, c, d),
        MulRule::Under(a, b, c) => under(pool, deep, a, b, c),
        MulRule::Power(a, b, e1, e2) => times_power(pool, deep, a, b, e1, e2),
        MulRule::Plain(a, b) => pool.append(Node::Mul(a, b)),
    }
}

// The exponential of a node, with `left` constructors left to run inside one another.
pub fn exp_in(pool: &mut Pool, left: u32, arg: u32) -> Result<u32, Refusal>
    ensures is { made result pool.new ≡ (calls left).exp_at arg pool.old }
    ensures room { RoomKept result (room_of pool.old) pool.new }
{
    let room = pool.room();
    let made = exp_unsettled(pool, left, arg);
    pool.settle(room, made)
}

// The same, but after a refusal the count may have moved: it is what the rules call.
#[cycle(mul_and_exp_rules)]
#[tactic(auto, using(views::proofs::Steps::runs_deeper, views::proofs::Steps::none_left), unfolding(constructors::specs::Build::build))]
fn exp_unsettled(pool: &mut Pool, left: u32, arg: u32) -> Result<u32, Refusal>
    ensures { made result pool.new ≡ (calls left).exp_at arg pool.old }
{
    if left == 0 {
        return Err(Refusal::TooDeep);
    }
    let deep = left - 1;
    match crate::rule::exp_rule(pool, arg) {
        ExpRule::One => adds::lit_in(pool, literal::fold(1)),
        ExpRule::Literal(z) => adds::lit_in(pool, literal::exp_literal(z)),
        ExpRule::Shifted(z, a) => exp_shifted(pool, deep, z, a),
        ExpRule::Plain(a) => pool.append(Node::Exp(a)),
    }
}

// add(a, b). It is never put into its caller: a level of `mul` would then have the room that `add_in` keeps, and take more of the stack.
#[inline(never)]
fn sum_in(pool: &mut Pool, left: u32, a: u32, b: u32) -> Result<u32, Refusal>
    ensures { made result pool.new ≡ (calls left).add_at a b pool.old }
{
    adds::add_in(pool, left, a, b)
}

// exp(add(a, b))
#[cycle(mul_and_exp_rules)]
#[tactic(auto, unfolding(constructors::specs::Build::build))]
fn exp_sum(pool: &mut Pool, left: u32, a: u32, b: u32) -> Result<u32, Refusal>
    ensures { made result pool.new ≡ build (calls left) (exp (add (# a) (# b))) pool.old }
{
    let s = sum_in(pool, left, a, b)?;
    exp_unsettled(pool, left, s)
}

// mul(lit(z.exp()), exp(a))
#[cycle(mul_and_exp_rules)]
#[tactic(auto, unfolding(constructors::specs::Build::build))]
fn exp_shifted(pool: &mut Pool, left: u32, z: i64, a: u32) -> Result<u32, Refusal>
    ensures { made result pool.new ≡ build (calls left) (mul (lit_exp z) (exp (# a))) pool.old }
{
    let f = adds::lit_in(pool, literal::exp_literal(z))?;
    let e = exp_unsettled(pool, left, a)?;
    mul_unsettled(pool, left, f, e)
}

// mul(x, exp(add(a, b)))
#[cycle(mul_and_exp_rules)]
#[tactic(auto, unfolding(constructors::specs::Build::build))]
fn over_exp(pool: &mut Pool, left: u32, x: u32, a: u32, b: u32) -> Result<u32, Refusal>
    ensures { made result pool.new ≡ build (calls left) (mul (# x) (exp (add (# a) (# b)))) pool.old }
{
    let e = exp_sum(pool, left, a, b)?;
    mul_unsettled(pool, left, x, e)
}

// mul(mul(x, y), exp(add(a, b)))
#[cycle(mul_and_exp_rules)]
#[tactic(auto, unfolding(constructors::specs::Build::build))]
fn over_exps(pool: &mut Pool, left: u32, x: u32, y: u32, a: u32, b: u32) -> Result<u32, Refusal>
    ensures { made result pool.new ≡ build (calls left) (mul (mul (# x) (# y)) (exp (add (# a) (# b)))) pool.old }
{
    let p = mul_unsettled(pool, left, x, y)?;
    over_exp(pool, left, p, a, b)
}

// Mul(lit(x * y), c), in which no constructor is called
#[tactic(auto, unfolding(constructors::specs::Build::build))]
fn scaled(pool: &mut Pool, x: i64, y: i64, c: u32) -> Result<u32, Refusal>
    ensures { made result pool.new ≡ build no_calls (Mul (lit (x *ℤ y)) (# c)) pool.old }
{
    let f = adds::lit_in(pool, literal::product(x, y))?;
    pool.append(Node::Mul(f, c))
}

// Mul(lit(x * y), mul(c, d))
#[cycle(mul_and_exp_rules)]
#[tactic(auto, unfolding(constructors::specs::Build::build))]
fn scales(pool: &mut Pool, left: u32, x: i64, y: i64, c: u32, d: u32) -> Result<u32, Refusal>
    ensures { made result pool.new ≡ build (calls left) (Mul (lit (x *ℤ y)) (mul (# c) (# d))) pool.old }
{
    let f = adds::lit_in(pool, literal::product(x, y))?;
    under(pool, left, f, c, d)
}

// Mul(a, mul(b, c))
#[cycle(mul_and_exp_rules)]
#[tactic(auto, unfolding(constructors::specs::Build::build))]
fn under(pool: &mut Pool, left: u32, a: u32, b: u32, c: u32) -> Result<u32, Refusal>
    ensures { made result pool.new ≡ build (calls left) (Mul (# a) (mul (# b) (# c))) pool.old }
{
    let p = mul_unsettled(pool, left, b, c)?;
    pool.append(Node::Mul(a, p))
}

// mul(a, pow(b, e1 + e2))
#[cycle(mul_and_exp_rules)]
#[tactic(auto, unfolding(constructors::specs::Build::build))]
fn times_power(pool: &mut Pool, left: u32, a: u32, b: u32, e1: u32, e2: u32) -> Result<u32, Refusal>
    ensures { made result pool.new ≡ build (calls left) (mul (# a) (pow (# b) (e1 + e2))) pool.old }
{
    let p = crate::power::pow_sum(pool, left, b, e1, e2)?;
    mul_unsettled(pool, left, a, p)
}
