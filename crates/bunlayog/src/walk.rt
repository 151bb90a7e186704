// The test of a pool, substitution and derivation as C functions.
ghost use Rattle.std.specs.Prelude.{◌≡◌};
ghost use Rattle.pool.specs.Pool.{is_pool};
ghost use Rattle.lent.specs.Call.{on_pool};
ghost use Rattle.engine_walk.specs.Walks.{substitute_work, derive_work};
ghost use Rattle.c_answers.specs.Interface.{returned_in_c, in_c, check_number};

use c_answers::answered;
use lent::Lent;

#[unsafe(no_mangle)]
pub extern "C" fn bunlayog_check(kinds: &[u8], words: &[u64], count: u64) -> u32
    ensures { result ≡ check_number (is_pool kinds.now words.now count) }
{
    match lent::tables(kinds, words, count) {
        Ok(_) => 0,
        Err(refusal) => refusal.number(),
    }
}

#[unsafe(no_mangle)]
pub extern "C" fn bunlayog_substitute_var(
    kinds: &mut [u8],
    words: &mut [u64],
    count: &mut u64,
    root: u64,
    var: u64,
    value: u64,
    node: &mut u64,
) -> u32
    ensures { returned_in_c result kinds.new words.new count.new node.new ≡ in_c node.old (on_pool (substitute_work root var value) kinds.old words.old count.old) }
{
    let mut lent = Lent::new(kinds, words, count);
    answered(
        engine_walk::substitute_var(&mut lent, root, var, value),
        node,
    )
}

#[unsafe(no_mangle)]
pub extern "C" fn bunlayog_derive(
    kinds: &mut [u8],
    words: &mut [u64],
    count: &mut u64,
    root: u64,
    var: u64,
    node: &mut u64,
) -> u32
    ensures { returned_in_c result kinds.new words.new count.new node.new ≡ in_c node.old (on_pool (derive_work root var) kinds.old words.old count.old) }
{
    let mut lent = Lent::new(kinds, words, count);
    answered(engine_walk::derive(&mut lent, root, var), node)
}
