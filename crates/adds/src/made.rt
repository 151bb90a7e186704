// `add` as a function of depth: a rule is found, and what it says is built one deeper. The pool and the depth are two parameters: the depth falls at each call, and a
// struct of both would be made anew at each.
ghost use Rattle.std.specs.Prelude.{◌≡◌, ◌+ℤ◌};
ghost use Rattle.refusals.specs.Numbers.{numbered};
ghost use Rattle.constructors.specs.Terms.{#, lit, add};
ghost use Rattle.constructors.specs.Build.{literal, build, calls};
ghost use Rattle.pool.specs.Made.{made};
ghost use Rattle.pool.specs.Room.{room_of, RoomKept};

use crate::rule::AddRule;
use pool::{Node, Pool};
use refusals::Refusal;

// A folded literal becomes a node.
pub fn lit_in(pool: &mut Pool, folded: Result<i64, Refusal>) -> Result<u32, Refusal>
    ensures is { made result pool.new ≡ literal (numbered folded) pool.old }
    ensures room { RoomKept result (room_of pool.old) pool.new }
{
    pool.append(Node::Lit(folded?))
}

// The sum of two nodes, with `left` constructors left to run inside one another.
pub fn add_in(pool: &mut Pool, left: u32, lhs: u32, rhs: u32) -> Result<u32, Refusal>
    ensures is { made result pool.new ≡ (calls left).add_at lhs rhs pool.old }
    ensures room { RoomKept result (room_of pool.old) pool.new }
{
    let room = pool.room();
    let made = add_unsettled(pool, left, lhs, rhs);
    pool.settle(room, made)
}

// The same, but after a refusal the count may have moved: what the rules call, so that only the outermost sum puts it back.
#[cycle(add_rules)]
#[tactic(auto, using(views::proofs::Steps::runs_deeper, views::proofs::Steps::none_left, views::proofs::Steps::build_node, views::proofs::Steps::build_lit, views::proofs::Steps::build_add))]
fn add_unsettled(pool: &mut Pool, left: u32, lhs: u32, rhs: u32) -> Result<u32, Refusal>
    ensures { made result pool.new ≡ (calls left).add_at lhs rhs pool.old }
{
    // Not by `checked_sub` and `?`, here and in muls and logs: tried, and a sum took a tenth more instructions.
    if left == 0 {
        return Err(Refusal::TooDeep);
    }
    let deep = left - 1;
    match crate::rule::add_rule(pool, lhs, rhs) {
        AddRule::Same(a) => Ok(a),
        AddRule::Sum(x, y) => lit_in(pool, literal::sum(x, y)),
        AddRule::Onto(b, x, y) => add_onto(pool, deep, b, x, y),
        AddRule::Plain(a, b) => pool.append(Node::Add(a, b)),
        AddRule::Sums(a, c, x, y) => add_sums(pool, deep, a, c, x, y),
        AddRule::Chain(a, b, c) => add_chain(pool, deep, a, b, c),
    }
}

// add(b, lit(x + y))
#[cycle(add_rules)]
#[tactic(auto, unfolding(constructors::specs::Build::build))]
fn add_onto(pool: &mut Pool, left: u32, b: u32, x: i64, y: i64) -> Result<u32, Refusal>
    ensures { made result pool.new ≡ build (calls left) (add (# b) (lit (x +ℤ y))) pool.old }
{
    let s = lit_in(pool, literal::sum(x, y))?;
    add_unsettled(pool, left, b, s)
}

// add(add(a, c), lit(x + y))
#[cycle(add_rules)]
#[tactic(auto, unfolding(constructors::specs::Build::build))]
fn add_sums(pool: &mut Pool, left: u32, a: u32, c: u32, x: i64, y: i64) -> Result<u32, Refusal>
    ensures { made result pool.new ≡ build (calls left) (add (add (# a) (# c)) (lit (x +ℤ y))) pool.old }
{
    let n = add_unsettled(pool, left, a, c)?;
    let s = lit_in(pool, literal::sum(x, y))?;
    add_unsettled(pool, left, n, s)
}

// add(add(a, b), c)
#[cycle(add_rules)]
#[tactic(auto, unfolding(constructors::specs::Build::build))]
fn add_chain(pool: &mut Pool, left: u32, a: u32, b: u32, c: u32) -> Result<u32, Refusal>
    ensures { made result pool.new ≡ build (calls left) (add (add (# a) (# b)) (# c)) pool.old }
{
    let n = add_unsettled(pool, left, a, b)?;
    add_unsettled(pool, left, n, c)
}
