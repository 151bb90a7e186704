// nodes.bin written from one root into a lent output.
#![tactic(auto)]

ghost use Rattle.std.specs.Prelude.{◌≡◌, [], ◌∷◌, ◌+◌, ◌*◌, ◌<◌, ◌≤◌, length, get_or};
ghost use Rattle.std.proofs.lemmas.List.Edits.{sets};
ghost use Rattle.pool.specs.Nodes.{parts};
ghost use Rattle.pool.specs.Pool.{limit};
ghost use Rattle.pool.specs.Tables.{nodes};
ghost use Rattle.shape.specs.Shape.{rename};
ghost use Rattle.shape.specs.File.{written_file};
ghost use Rattle.refusals.specs.Numbers.{numbered};
ghost use Rattle.node_write.specs.Entries.{number_in, Marked, AllMarked, entry_by, all_entries, bytes_of, Listed};
ghost use Rattle.node_write.specs.Output.{HasRoots, file_output, file_into};

use node_walk::Numbering;
use pool::{Node, Tables};
use refusals::Refusal;

// Entry m of the file: the node with number m, its parts given by their numbers. A part's mark is its number + 1.
fn entry(tables: Tables, numbering: &Numbering, m: usize) -> Node
    requires m_lt_limit { m < limit }
    requires all_marked { AllMarked numbering.now.number (parts (nodes tables (get_or numbering.now.order m 0))) }
    ensures { result ≡ entry_by (nodes tables.entry) numbering.now m }
{
    node_walk::renamed(tables.node(numbering.order[m]), |part| {
        numbering.number[part as usize] - 1
    })
}

// The entries from the place `first` on: the kinds of all, a byte each, and behind them the words. Each entry is made once, so both are put in one loop.
#[tactic(auto, using(crate::proofs::Putting::no_entries_put, crate::proofs::Putting::entry_put, crate::proofs::Putting::all_entries_put))]
fn put_entries(tables: Tables, numbering: &Numbering, first: usize, out: &mut [u8])
    requires listed { Listed (nodes tables) numbering.now }
    requires n_in_bounds { first + 9 * numbering.now.done ≤ length out.old }
    ensures { out.new ≡ sets out.old first (bytes_of (all_entries (nodes tables.entry) numbering.now)) }
{
    let n = numbering.done as usize;
    for m in 0..n {
        let node = entry(tables, numbering, m);
        out[first + m] = node.kind();
        low_bytes::put_bytes(out, first + n + 8 * m, 8, node.word());
    }
}

// The node file of a root: how many bytes it has. That is known after the walk, before the first byte is written.
pub fn write_file(tables: Tables, root: u32, out: &mut [u8]) -> Result<u64, Refusal>
    requires { HasRoots tables.kinds.now tables.words.now (root ∷ []) }
    ensures { file_output (numbered result) out.new ≡ file_into out.old (written_file tables.entry.kinds.now tables.entry.words.now root) }
{
    let mut numbering = Numbering::none();
    numbering.number_all(tables, &[root as u64]);
    let n = numbering.done as usize;
    let length = 4 + 9 * n;
    if out.len() < length {
        return Err(Refusal::NoRoom);
    }
    low_bytes::put_bytes(out, 0, 4, n as u64);
    put_entries(tables, &numbering, 4, out);
    Ok(length as u64)
}
