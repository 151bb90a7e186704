// The walk: a kept expansion is left as it is, else the node is visited, its parts first, and its expansion kept.
ghost use Rattle.std.specs.Prelude.{◌≡◌, ◌+◌, ◌<◌, ◌≤◌, length, replicate, None};
ghost use Rattle.pool.specs.Pool.{limit};
ghost use Rattle.taylor.specs.Coefficients.{terms};
ghost use Rattle.taylor.specs.Expand.{state, expand_below, expand};
ghost use Rattle.pool.specs.Made.{made};
ghost use Rattle.pool.specs.Room.{room_of, RoomKept};
ghost use Rattle.expand.specs.Results.{results_of, walked};

use crate::node::{keep_in, kept_for, visited};
use crate::point::Asked;
use pool::{LIMIT, Parts, Pool};
use refusals::Refusal;
use taylor::Expansion;

// How many places are lent to the walk from a small root, and from one of middle size; from any other there is one for each node. They are cleared first.
const FEW_PLACES: usize = 128;

const SOME_PLACES: usize = 512;

// `taylor_coeffs`, `taylor_coeffs_at`: the expansion of the expression at `root` in the variable `var`.
pub fn expand_in(
    pool: &mut Pool,
    root: u32,
    var: u32,
    point: Option<i64>,
    order: u32,
) -> Result<Expansion, Refusal>
    requires { order < terms }
    ensures is { made result pool.new ≡ expand root var point order pool.old }
    ensures room { RoomKept result (room_of pool.old) pool.new }
{
    let room = pool.room();
    let made = expand_unsettled(pool, root, var, point, order);
    pool.settle(room, made)
}

// The same, but after a refusal the count may have moved.
#[tactic(auto, using(expand_laws::proofs::Bounds::nowhere))]
fn expand_unsettled(
    pool: &mut Pool,
    root: u32,
    var: u32,
    point: Option<i64>,
    order: u32,
) -> Result<Expansion, Refusal>
    requires { order < terms }
    ensures { made result pool.new ≡ expand root var point order pool.old }
{
    let asked = Asked { var, point, order };
    let at = root as usize;
    if at < FEW_PLACES {
        return expand_within::<FEW_PLACES>(pool, root, &asked);
    }
    if at < SOME_PLACES {
        return expand_within::<SOME_PLACES>(pool, root, &asked);
    }
    if at < LIMIT {
        return expand_within::<LIMIT>(pool, root, &asked);
    }
    Err(Refusal::BrokenPool)
}

// The expansion, with N places, of which one is the root's, and in which nothing is kept. It is never put into its caller, whose frame would then have
// room for all places, 450 KB that are touched page by page at every call.
#[inline(never)]
#[tactic(auto, using(crate::proofs::Results::none_kept))]
fn expand_within<const N: usize>(
    pool: &mut Pool,
    root: u32,
    asked: &Asked,
) -> Result<Expansion, Refusal>
    requires within { root < N }
    requires most { N ≤ limit }
    ensures { made result pool.new ≡ expand root asked.now.var asked.now.point asked.now.order pool.old }
{
    let mut kept: [Option<Expansion>; N] = [None; N];
    expand_over(pool, &mut kept, root, asked)
}

// The expansion, with a place for the root and nothing kept.
#[tactic(auto, using(crate::proofs::Walks::whole))]
fn expand_over(
    pool: &mut Pool,
    kept: &mut [Option<Expansion>],
    root: u32,
    asked: &Asked,
) -> Result<Expansion, Refusal>
    requires within { root < length kept.old }
    requires most { length kept.old ≤ limit }
    requires nothing { results_of kept.old ≡ replicate limit None }
    ensures { made result pool.new ≡ expand root asked.now.var asked.now.point asked.now.order pool.old }
{
    walk_below(pool, kept, root + 1, root, asked)?;
    Ok(*kept_for(kept, root))
}

// From node i, where i is below the bound: a node whose expansion is kept is not visited again; the parts of another, which have smaller numbers, come
// first. A level of the walk hands on no expansion, so that it takes little of the stack. `pool, kept, asked` are three parameters: a struct of the two `&mut`
// would be made anew at each level.
#[tactic(auto, using(crate::proofs::Walks::walks))]
fn walk_below(
    pool: &mut Pool,
    kept: &mut [Option<Expansion>],
    bound: u32,
    i: u32,
    asked: &Asked,
) -> Result<(), Refusal>
    requires within { bound ≤ length kept.old }
    requires most { length kept.old ≤ limit }
    ensures { walked result pool.new kept.new i ≡ expand_below asked.now.var asked.now.point asked.now.order bound i (state pool.old (results_of kept.old)) }
{
    if bound <= i {
        return Err(Refusal::BrokenPool);
    }
    if kept[i as usize].is_some() {
        return Ok(());
    }
    let node = pool.node(i);
    match visited(node) {
        Parts::None => keep_in(pool, kept, i, node, asked),
        Parts::One(a) => {
            walk_below(pool, kept, i, a, asked)?;
            keep_in(pool, kept, i, node, asked)
        }
        Parts::Two(a, b) => {
            walk_below(pool, kept, i, a, asked)?;
            walk_below(pool, kept, i, b, asked)?;
            keep_in(pool, kept, i, node, asked)
        }
    }
}
