// `log`, `div` and `max` as functions of depth: a rule is found, and what it says is built one deeper.
ghost use Rattle.std.specs.Prelude.{◌≡◌};
ghost use Rattle.constructors.specs.Terms.{#, lit_log, add, log};
ghost use Rattle.constructors.specs.Build.{build, calls};
ghost use Rattle.pool.specs.Made.{made};
ghost use Rattle.pool.specs.Room.{room_of, RoomKept};

use crate::rule::{DivRule, LogRule};
use pool::{Node, Pool};
use refusals::Refusal;

// The logarithm of a node, with `left` constructors left to run inside one another.
pub fn log_in(pool: &mut Pool, left: u32, arg: u32) -> Result<u32, Refusal>
    ensures is { made result pool.new ≡ (calls left).log_at arg pool.old }
    ensures room { RoomKept result (room_of pool.old) pool.new }
{
    let room = pool.room();
    let made = log_unsettled(pool, left, arg);
    pool.settle(room, made)
}

// The same, but after a refusal the count may have moved: it is what the rules call.
#[cycle(log_rules)]
#[tactic(auto, using(views::proofs::Steps::runs_deeper, views::proofs::Steps::none_left), unfolding(constructors::specs::Build::build))]
fn log_unsettled(pool: &mut Pool, left: u32, arg: u32) -> Result<u32, Refusal>
    ensures { made result pool.new ≡ (calls left).log_at arg pool.old }
{
    if left == 0 {
        return Err(Refusal::TooDeep);
    }
    let deep = left - 1;
    match crate::rule::log_rule(pool, arg) {
        LogRule::Zero => adds::lit_in(pool, literal::fold(0)),
        LogRule::Literal(a) => adds::lit_in(pool, literal::log_literal(a)),
        LogRule::Product(a, b) => log_product(pool, deep, a, b),
        LogRule::Plain(a) => pool.append(Node::Log(a)),
    }
}

// add(log(b), lit(a.log()))
#[cycle(log_rules)]
#[tactic(auto, unfolding(constructors::specs::Build::build))]
fn log_product(pool: &mut Pool, left: u32, a: i64, b: u32) -> Result<u32, Refusal>
    ensures { made result pool.new ≡ build (calls left) (add (log (# b)) (lit_log a)) pool.old }
{
    let s = log_unsettled(pool, left, b)?;
    let t = adds::lit_in(pool, literal::log_literal(a))?;
    adds::add_in(pool, left, s, t)
}

// The quotient of two nodes, with `left` constructors left to run inside one another. No constructor runs inside it, so `left` is only tested.
#[tactic(auto, using(views::proofs::Steps::runs_deeper, views::proofs::Steps::none_left), unfolding(constructors::specs::Build::build))]
pub fn div_in(pool: &mut Pool, left: u32, lhs: u32, rhs: u32) -> Result<u32, Refusal>
    ensures is { made result pool.new ≡ (calls left).div_at lhs rhs pool.old }
    ensures room { RoomKept result (room_of pool.old) pool.new }
{
    if left == 0 {
        return Err(Refusal::TooDeep);
    }
    match crate::rule::div_rule(pool, lhs, rhs) {
        DivRule::Zero => adds::lit_in(pool, literal::fold(0)),
        DivRule::Same(a) => Ok(a),
        DivRule::Plain(a, b) => pool.append(Node::Div(a, b)),
    }
}

// The greater of two nodes, with `left` constructors left to run inside one another: only tested, as in div_in.
#[tactic(auto, using(views::proofs::Steps::runs_deeper, views::proofs::Steps::none_left), unfolding(constructors::specs::Build::build))]
pub fn max_in(pool: &mut Pool, left: u32, lhs: u32, rhs: u32) -> Result<u32, Refusal>
    ensures is { made result pool.new ≡ (calls left).max_at lhs rhs pool.old }
    ensures room { RoomKept result (room_of pool.old) pool.new }
{
    if left == 0 {
        return Err(Refusal::TooDeep);
    }
    pool.append(Node::Max(lhs, rhs))
}
