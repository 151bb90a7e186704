// nodes.bin read into a pool: its length, its entries and their order are looked at, and then the nodes are appended.
#![tactic(auto)]

ghost use Rattle.std.specs.Prelude.{◌≡◌, ℕ, ◌+◌, ◌<◌, ◌≤◌, ◌↔◌, IsTrue, get_or};
ghost use Rattle.refusals.specs.Numbers.{numbered};
ghost use Rattle.pool.specs.Pool.{limit, empty, node_at};
ghost use Rattle.pool.specs.Made.{made};
ghost use Rattle.pool.specs.Room.{room_of, RoomKept};
ghost use Rattle.pool.specs.Rows.{row_numbers};
ghost use Rattle.shape.specs.Shape.{rename};
ghost use Rattle.shape.specs.File.{are_in_order, append_shifted, read_file};
ghost use Rattle.shape.specs.Demand.{Below};
ghost use Rattle.shape.specs.Walked.{Falls};
ghost use Rattle.node_read.specs.Reads.{size_tested, HasEntries, Entered, FileTested};

use node_walk::Numbering;
use pool::{LIMIT, Node, Pool, ROWS};
use refusals::Refusal;

// A file's n, or 7.
#[tactic(auto, unfolding(crate::specs::Reads::size_tested, shape::specs::File::is_sized))]
fn size_of(file: &[u8]) -> Result<usize, Refusal>
    ensures { numbered result ≡ size_tested file.now }
{
    let length = file.len();
    if length < 4 {
        return Err(Refusal::WrongLength);
    }
    let n = low_bytes::number_at(file, 0, 4);
    if n == 0 || (LIMIT as u64) < n {
        return Err(Refusal::WrongLength);
    }
    let size = n as usize;
    if length != 4 + 9 * size {
        return Err(Refusal::WrongLength);
    }
    Ok(size)
}

// Whether each of n entries, their kinds from the place `first` on, is a node that may stand at its place. Where they are, they are copied, in the one pass
// that looks at them.
fn entries_in(table: &[u64; ROWS], file: &[u8], first: usize, n: usize, entries: &mut Pool) -> bool
    requires has_entries { HasEntries first n file.now }
    requires none { (entries.old.kinds ≡ empty.kinds) × (entries.old.words ≡ empty.words) }
    requires table_value { table.now ≡ row_numbers }
    ensures { Entered result first n file.now entries.new }
{
    for i in 0..n {
        let kind = file[first + i];
        let word = low_bytes::number_at(file, first + n + 8 * i, 8);
        if !pool::keeps_at(table, i as u32, kind, word) {
            return false;
        }
        entries.kinds[i] = kind;
        entries.words[i] = word;
    }
    true
}

// Whether each of the first n nodes has its own place as its number; a mark is the number + 1.
fn in_place(number: &[u32; LIMIT], n: usize) -> bool
    requires { n ≤ limit }
    ensures { IsTrue result ↔ ((i : ℕ) → i < n → get_or number.now i 0 ≡ i + 1) }
{
    (0..n).all(
        |i|
            requires { i < limit }
        { number[i] == i as u32 + 1 },
    )
}

// Whether the walk over the roots numbers each of the n entries by its place.
fn in_order(entries: &Pool, roots: &[u64], n: usize) -> bool
    requires n_le_limit { (n ≤ limit) × Below limit roots.now }
    requires falls { Falls (node_at entries.now) }
    ensures { result ≡ are_in_order (node_at entries.now) roots.now n }
{
    let mut numbering = Numbering::none();
    numbering.number_all(entries.tables(), roots);
    in_place(&numbering.number, n)
}

// The test of a node file, 7, 8 and 9: where it passes, the tables, which are zeros before as an empty pool's are, have its entries; how many they are is the answer.
#[tactic(auto, unfolding(crate::specs::Reads::test_file, crate::specs::Reads::size_tested, shape::specs::File::is_sized, shape::specs::File::are_nodes, shape::specs::File::is_in_order))]
pub fn test_file(file: &[u8], entries: &mut Pool) -> Result<usize, Refusal>
    requires zeros { (entries.old.kinds ≡ empty.kinds) × (entries.old.words ≡ empty.words) }
    ensures { FileTested (numbered result) file.now entries.new }
{
    let n = size_of(file)?;
    let table = pool::TABLE;
    if !entries_in(&table, file, 4, n, entries) {
        return Err(Refusal::WrongEntry);
    }
    if !in_order(entries, &[n as u64 - 1], n) {
        return Err(Refusal::WrongSequence);
    }
    Ok(n)
}

// Entry i with its parts shifted.
fn shifted(entries: &Pool, i: u32, by: u32) -> Node
    requires small { (i ≤ limit) × (by ≤ limit) }
    requires falls { Falls (node_at entries.now) }
    ensures { result ≡ rename (λ j. by + j) (node_at entries.now i) }
{
    node_walk::renamed(entries.node(i), |part| by + part)
}

// The n entries appended one after the other, their parts shifted by the count; the last is the root.
fn append_entries(entries: &Pool, n: usize, pool: &mut Pool) -> Result<u32, Refusal>
    requires n_le_limit { (n ≤ limit) × (pool.old.count ≤ limit) }
    requires falls { Falls (node_at entries.now) }
    ensures { made result pool.new ≡ append_shifted n (node_at entries.now) pool.old }
{
    let by = pool.count;
    let mut last = by;
    for i in 0..n {
        last = pool.append(shifted(entries, i as u32, by))?;
    }
    Ok(last)
}

// A node file read into the pool: its test, then its nodes appended.
pub fn read_file(file: &[u8], pool: &mut Pool) -> Result<u32, Refusal>
    requires { pool.old.count ≤ limit }
    ensures is { made result pool.new ≡ read_file file.now pool.old }
    ensures room { RoomKept result (room_of pool.old) pool.new }
{
    let room = pool.room();
    let made = read_unsettled(file, pool);
    pool.settle(room, made)
}

// The same, but after a refusal the count may have moved.
#[tactic(auto, unfolding(shape::specs::File::read_file, shape::specs::File::is_sized, crate::specs::Reads::test_file))]
fn read_unsettled(file: &[u8], pool: &mut Pool) -> Result<u32, Refusal>
    requires { pool.old.count ≤ limit }
    ensures { made result pool.new ≡ read_file file.now pool.old }
{
    let mut entries = Pool::empty();
    let n = test_file(file, &mut entries)?;
    append_entries(&entries, n, pool)
}
