// The node file as calls from outside: writing from a root, and reading into the pool.
#![tactic(auto)]

ghost use Rattle.std.specs.Prelude.{◌≡◌};
ghost use Rattle.refusals.specs.Numbers.{numbered};
ghost use Rattle.shape.specs.File.{read_file};
ghost use Rattle.lent.specs.Call.{Called, on_pool};
ghost use Rattle.engine_file.specs.Write.{write_call};
ghost use Rattle.lent.specs.Writing.{put};

use lent::Lent;
use pool::Pool;
use refusals::Refusal;

// The node file of a root, written into the lent output. Why both tables and the count are three parameters stands at `lent::tables`.
#[tactic(auto, unfolding(crate::specs::Write::write_call, node_write::specs::Output::file_into), using(lent::proofs::Calling::one_fits))]
pub fn write(
    kinds: &[u8],
    words: &[u64],
    count: u64,
    root: u64,
    out: &mut [u8],
) -> Result<u64, Refusal>
    ensures { put (numbered result) out.new ≡ write_call kinds.now words.now count root out.old }
{
    let tables = lent::tables(kinds, words, count)?;
    lent::one_given(count, root)?;
    node_write::write_file(tables, root as u32, out)
}

// A node file, read into the pool: its root. Why no function is passed the work in place of this frame stands in crates/engine/src/one.rt.
#[tactic(auto, using(lent::proofs::Calling::taken_small, crate::proofs::Growing::read_appended))]
pub fn read(lent: &mut Lent<'_>, file: &[u8]) -> Result<u64, Refusal>
    ensures { Called (on_pool (read_file file.now)) lent.old (numbered result) lent.new }
{
    let mut pool = Pool::empty();
    lent.take_in(&mut pool)?;
    let made = node_read::read_file(file, &mut pool);
    lent.finish(&pool, made)
}
