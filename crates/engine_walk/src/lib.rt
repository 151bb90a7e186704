// Substitution and derivation as calls from outside. Why no function is passed the work in place of each frame stands in crates/engine/src/one.rt.
#![tactic(auto)]

ghost use Rattle.std.specs.Prelude.{◌≡◌};
ghost use Rattle.refusals.specs.Numbers.{numbered};
ghost use Rattle.lent.specs.Call.{Called, on_pool};
ghost use Rattle.engine_walk.specs.Walks.{substitute_work, derive_work};

use lent::Lent;
use pool::Pool;
use refusals::Refusal;

// `substitute_var`: the variable is replaced by a node.
#[tactic(auto, using(crate::proofs::Growing::substitute_appended))]
pub fn substitute_var(lent: &mut Lent<'_>, root: u64, var: u64, value: u64) -> Result<u64, Refusal>
    ensures { Called (on_pool (substitute_work root var value)) lent.old (numbered result) lent.new }
{
    let mut pool = Pool::empty();
    lent.take_in(&mut pool)?;
    lent::both_given(pool.count as u64, root, value)?;
    lent::variable_given(var)?;
    let made = substitute::substitute_in(&mut pool, root as u32, var as u32, value as u32);
    lent.finish(&pool, made)
}

// `derive` by a variable.
#[tactic(auto, using(crate::proofs::Growing::derive_appended))]
pub fn derive(lent: &mut Lent<'_>, root: u64, var: u64) -> Result<u64, Refusal>
    ensures { Called (on_pool (derive_work root var)) lent.old (numbered result) lent.new }
{
    let mut pool = Pool::empty();
    lent.take_in(&mut pool)?;
    lent::one_given(pool.count as u64, root)?;
    lent::variable_given(var)?;
    let made = derive::derive_in(&mut pool, root as u32, var as u32);
    lent.finish(&pool, made)
}
