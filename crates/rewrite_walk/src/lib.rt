// A walk from a node to its parts that builds: each visited node's result is kept, so that a shared part is done once. What is done at a node is a trait's, with its definition and its law.
#![tactic(auto)]

ghost use Rattle.std.specs.Prelude.{◌≡◌, ◌+◌, ◌<◌, ◌≤◌, ℕ, List, Option, length};
ghost use Rattle.refusals.specs.Refusals.{broken_pool};
ghost use Rattle.pool.specs.declared.node.Node.{Node};
ghost use Rattle.pool.specs.declared.node.Node.TheVariants.{Empty};
ghost use Rattle.pool.specs.Made.{made};
ghost use Rattle.pool.specs.Room.{room_of, RoomKept};
ghost use Rattle.walks.specs.Walk.{Walk, refuse, state, lifted, walk_below, walk_from};
ghost use Rattle.rewrite_walk.specs.Walked.{walked, state_of};
ghost use Rattle.rewrite_walk.specs.Steps.{after_one, after_two, in_steps, rewrite_at};

use pool::{LIMIT, Node, Pool};
use refusals::Refusal;

// A walk from a smaller root keeps its results in a table of this length: clearing one for every node takes a tenth of a small question's time.
pub const FEW: usize = 256;

// What is to be done at a node, by name: it is found before the parts are walked, so that the node itself is not kept until then. That was tried: a node in memory is stored in
// pieces and read back as others, which a processor waits for, and substituting took a sixth longer.
#[derive(Clone, Copy)]
pub enum Work<L, O, T> {
    Leaf(L),
    One(O, u32),
    Two(T, u32, u32),
}

// What is done at a node: its parts are walked, left before right, and then one step makes the node's result of theirs.
pub trait Rewriting {
    // what is done at a node without parts that are walked, with one, and with two
    type Leaf: Copy;

    type One: Copy;

    type Two: Copy;

    // the definition: what is done at a node, given the walk of its parts
    ghost at_node: { Self → (ℕ → Walk) → ℕ → Node → Walk };

    // the steps, given the node's number, its parts and their results
    ghost leaf_step: { Self → Self.Leaf → Walk };

    ghost one_step: { Self → ℕ → Self.One → ℕ → ℕ → Walk };

    ghost two_step: { Self → ℕ → Self.Two → ℕ → ℕ → ℕ → ℕ → Walk };

    fn work(&self, term: u32, node: Node) -> Result<Work<Self::Leaf, Self::One, Self::Two>, Refusal>
        ensures { (down : ℕ → Walk) → in_steps down (leaf_step self.now) (one_step self.now term) (two_step self.now term) result ≡ at_node self.now down term node };

    fn leaf(&self, pool: &mut Pool, leaf: Self::Leaf) -> Result<u32, Refusal>
        ensures { (kept : List (Option ℕ)) → lifted kept (made result pool.new) ≡ leaf_step self.now leaf (state pool.old kept) };

    // The part a came to x.
    fn one(&self, pool: &mut Pool, term: u32, op: Self::One, a: u32, x: u32) -> Result<u32, Refusal>
        ensures { (kept : List (Option ℕ)) → lifted kept (made result pool.new) ≡ one_step self.now term op a x (state pool.old kept) };

    // The parts a and b came to x and y.
    fn two(
        &self,
        pool: &mut Pool,
        term: u32,
        op: Self::Two,
        a: u32,
        b: u32,
        x: u32,
        y: u32,
    ) -> Result<u32, Refusal>
        ensures { (kept : List (Option ℕ)) → lifted kept (made result pool.new) ≡ two_step self.now term op a b x y (state pool.old kept) };

    ghost empty_refused: { (s : Self) (down : ℕ → Walk) (term : ℕ) → at_node s down term Empty ≡ refuse broken_pool };
}

// A whole walk. No result is kept at first: the table of a small root has few entries. A function with the length as a const parameter would spare one line of each
// case, and have a contract and two requirements of its own.
pub fn rewrite_in<R: Rewriting>(of: &R, pool: &mut Pool, root: u32) -> Result<u32, Refusal>
    ensures is { made result pool.new ≡ walk_from (rewrite_at (R.at_node of.now)) root pool.old }
    ensures room { RoomKept result (room_of pool.old) pool.new }
{
    let room = pool.room();
    let made = rewrite_unsettled(of, pool, root);
    pool.settle(room, made)
}

// The same, but after a refusal the count may have moved.
fn rewrite_unsettled<R: Rewriting>(of: &R, pool: &mut Pool, root: u32) -> Result<u32, Refusal>
    ensures { made result pool.new ≡ walk_from (rewrite_at (R.at_node of.now)) root pool.old }
{
    if (root as usize) < FEW {
        let mut few: [Option<u32>; FEW] = [None; FEW];
        return walk_at(of, pool, &mut few, root);
    }
    if (root as usize) < LIMIT {
        let mut kept: [Option<u32>; LIMIT] = [None; LIMIT];
        return walk_at(of, pool, &mut kept, root);
    }
    Err(Refusal::BrokenPool)
}

// From a node: its result is kept.
#[cycle(walk)]
#[tactic(auto, using(crate::proofs::Turns::given_again, crate::proofs::Turns::visited, crate::proofs::Turns::result_kept))]
fn walk_at<R: Rewriting>(
    of: &R,
    pool: &mut Pool,
    kept: &mut [Option<u32>],
    term: u32,
) -> Result<u32, Refusal>
    requires { term < length kept.old }
    ensures { walked result pool.new kept.new ≡ walk_below (rewrite_at (R.at_node of.now)) (term + 1) term (state_of pool.old kept.old) }
{
    let at = term as usize;
    if let Some(result) = kept[at] {
        return Ok(result);
    }
    let result = walk_node(of, pool, kept, term)?;
    kept[at] = Some(result);
    Ok(result)
}

// At a node: its parts, left before right, and then its step.
#[cycle(walk)]
fn walk_node<R: Rewriting>(
    of: &R,
    pool: &mut Pool,
    kept: &mut [Option<u32>],
    term: u32,
) -> Result<u32, Refusal>
    requires { term < length kept.old }
    ensures { walked result pool.new kept.new ≡ rewrite_at (R.at_node of.now) (walk_below (rewrite_at (R.at_node of.now)) term) term (state_of pool.old kept.old) }
{
    let node = pool.node(term);
    match of.work(term, node)? {
        Work::Leaf(leaf) => of.leaf(pool, leaf),
        Work::One(op, a) => walk_one(of, pool, kept, term, op, a),
        Work::Two(op, a, b) => walk_two(of, pool, kept, term, op, a, b),
    }
}

// A node of two parts, left before right. A function for each number of parts: where these were arms of `walk_node`, the compiler made the step a call, and substituting took an eighth longer.
#[cycle(walk)]
fn walk_two<R: Rewriting>(
    of: &R,
    pool: &mut Pool,
    kept: &mut [Option<u32>],
    term: u32,
    op: R::Two,
    a: u32,
    b: u32,
) -> Result<u32, Refusal>
    requires { term < length kept.old }
    ensures { walked result pool.new kept.new ≡ after_two (walk_below (rewrite_at (R.at_node of.now)) term) a b (R.two_step of.now term op a b) (state_of pool.old kept.old) }
{
    let x = walk_part(of, pool, kept, term, a)?;
    let y = walk_part(of, pool, kept, term, b)?;
    of.two(pool, term, op, a, b, x, y)
}

// A node of one part.
#[cycle(walk)]
fn walk_one<R: Rewriting>(
    of: &R,
    pool: &mut Pool,
    kept: &mut [Option<u32>],
    term: u32,
    op: R::One,
    a: u32,
) -> Result<u32, Refusal>
    requires { term < length kept.old }
    ensures { walked result pool.new kept.new ≡ after_one (walk_below (rewrite_at (R.at_node of.now)) term) a (R.one_step of.now term op a) (state_of pool.old kept.old) }
{
    let x = walk_part(of, pool, kept, term, a)?;
    of.one(pool, term, op, a, x)
}

// A part, which has a smaller number than the node: that is the bound.
#[cycle(walk)]
#[tactic(auto, using(crate::proofs::Bounds::below, crate::proofs::Bounds::above))]
fn walk_part<R: Rewriting>(
    of: &R,
    pool: &mut Pool,
    kept: &mut [Option<u32>],
    bound: u32,
    a: u32,
) -> Result<u32, Refusal>
    requires { bound ≤ length kept.old }
    ensures { walked result pool.new kept.new ≡ walk_below (rewrite_at (R.at_node of.now)) bound a (state_of pool.old kept.old) }
{
    if a < bound {
        return walk_at(of, pool, kept, a);
    }
    Err(Refusal::BrokenPool)
}
