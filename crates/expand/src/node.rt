// The expansion of a node, of those of its parts.
ghost use Rattle.std.specs.Prelude.{◌≡◌, ◌<◌, eqb, length};
ghost use Rattle.pool.specs.Parts.{parts_in};
ghost use Rattle.taylor.specs.Expand.{bind, lift, keep, state};
ghost use Rattle.pool.specs.Made.{made};
ghost use Rattle.expand.specs.Nodes.{visits, leaf_work, node_work};
ghost use Rattle.expand.specs.Results.{results_of, expansion_at, IsKept, AllKept, walked};

use crate::point::{Asked, variable_in};
use pool::{Node, Parts, Pool};
use refusals::Refusal;
use taylor::Expansion;

// The parts of a node that are visited before it: at a Max the walk ends.
pub fn visited(node: Node) -> Parts
    ensures { parts_in result ≡ visits node }
{
    match node {
        Node::Max(_, _) => Parts::None,
        _ => node.parts(),
    }
}

// The expansion that is kept for node i.
pub fn kept_for(kept: &[Option<Expansion>], i: u32) -> &Expansion
    requires { IsKept kept.now i }
    ensures { result.now ≡ expansion_at kept.now i }
{
    kept[i as usize].as_ref().unwrap()
}

// At a variable v: any other than the sought one is a constant.
fn leaf_in(pool: &mut Pool, v: u32, term: u32, asked: &Asked) -> Result<Expansion, Refusal>
    ensures { made result pool.new ≡ leaf_work (eqb v asked.now.var) term asked.now.var asked.now.point asked.now.order pool.old }
{
    if v == asked.var {
        return variable_in(pool, asked);
    }
    Ok(Expansion::Constant(term))
}

// The expansion of the node `term`, whose parts are kept.
fn node_in(
    pool: &mut Pool,
    kept: &[Option<Expansion>],
    term: u32,
    node: Node,
    asked: &Asked,
) -> Result<Expansion, Refusal>
    requires visited { AllKept kept.now (visits node) }
    ensures { made result pool.new ≡ node_work asked.now.var asked.now.point asked.now.order (expansion_at kept.now) term node pool.old }
{
    match node {
        Node::Empty => Err(Refusal::BrokenPool),
        Node::Variable(v) => leaf_in(pool, v, term, asked),
        Node::Lit(_) => Ok(Expansion::Constant(term)),
        Node::Add(a, b) => taylor_base::add_in(pool, kept_for(kept, a), kept_for(kept, b)),
        Node::Mul(a, b) => taylor_products::times_in(pool, kept_for(kept, a), kept_for(kept, b)),
        Node::Div(a, b) => taylor_quotients::quotient_in(
            pool,
            kept_for(kept, a),
            kept_for(kept, b),
        ),
        Node::Exp(a) => taylor_quotients::exp_in(pool, kept_for(kept, a)),
        Node::Log(a) => taylor_quotients::log_in(pool, kept_for(kept, a)),
        Node::Pow(a, e) => taylor_products::pow_in(pool, kept_for(kept, a), e),
        Node::Max(_, _) => Err(Refusal::MaxReached),
    }
}

// The expansion of the node `term` is made and kept. It is no part of the walk's own frame, of which there is one for each level. Why `pool, kept, asked` are no
// struct stands at `walk_below`.
#[inline(never)]
#[tactic(auto, using(crate::proofs::Walks::now_kept))]
pub fn keep_in(
    pool: &mut Pool,
    kept: &mut [Option<Expansion>],
    term: u32,
    node: Node,
    asked: &Asked,
) -> Result<(), Refusal>
    requires within { term < length kept.old }
    requires visited { AllKept kept.old (visits node) }
    ensures { walked result pool.new kept.new term ≡ bind (lift (node_work asked.now.var asked.now.point asked.now.order (expansion_at kept.old) term node) (state pool.old (results_of kept.old))) (keep term) }
{
    let made = node_in(pool, kept, term, node, asked)?;
    kept[term as usize] = Some(made);
    Ok(())
}
