// The list from its first line to its last.
use crate::calls::call_is_right;
use crate::raw::{TABLE, set_both};
use lent::Lent;
use number_list::Numbers;
use std::io;
use std::io::{Print, Read};
use std::num::wrapping_add_u64;

const FIRST_CALL: u64 = 10;

// The list comes in blocks of whole lines, and has fewer blocks than this.
const BLOCK: usize = 16_384;

const BLOCKS: usize = 64;

// How many calls were made, and how many of them differ.
#[derive(Clone, Copy)]
struct Tally {
    calls: u64,
    differing: u64,
}

// The next line. A difference is printed with what finds its line.
fn line(
    rt: &impl Print,
    list: &mut Numbers,
    lent: &mut Lent,
    listed: &mut Lent,
    tally: &mut Tally,
) -> io::Result<()> {
    let op = list.next();
    if op < FIRST_CALL {
        set_both(op, list, lent, listed);
        return Ok(());
    }
    tally.calls = wrapping_add_u64(tally.calls, 1);
    if call_is_right(op, list, lent, listed) {
        return Ok(());
    }
    tally.differing = wrapping_add_u64(tally.differing, 1);
    println!(rt; "call {}, operation {op}: differs", tally.calls)
}

// All lines of a block: there are fewer of them than bytes.
fn run(
    rt: &impl Print,
    text: &[u8],
    lent: &mut Lent,
    listed: &mut Lent,
    tally: &mut Tally,
) -> io::Result<()> {
    let mut list = Numbers::of(text);
    for _ in 0..text.len() {
        if list.is_at_end() {
            return Ok(());
        }
        line(rt, &mut list, lent, listed, tally)?;
    }
    Ok(())
}

// The next block from standard input.
fn block<R: Read>(
    rt: &impl Print,
    reader: &mut R,
    lent: &mut Lent,
    listed: &mut Lent,
    tally: &mut Tally,
) -> io::Result<()> {
    let mut text = [0u8; BLOCK];
    let n = inputs::read_full(reader, &mut text)?;
    run(rt, &text[..n], lent, listed, tally)
}

fn all_blocks<R: Read>(
    rt: &impl Print,
    reader: &mut R,
    lent: &mut Lent,
    listed: &mut Lent,
) -> io::Result<()> {
    let mut tally = Tally {
        calls: 0,
        differing: 0,
    };
    for _ in 0..BLOCKS {
        block(rt, reader, lent, listed, &mut tally)?;
    }
    println!(rt;
        "{} calls replayed, {} differ",
        tally.calls, tally.differing
    )
}

// The engine's tables, and beside them those that the list's entries go to.
pub fn replay<R: Read>(rt: &impl Print, reader: &mut R) -> io::Result<()> {
    let mut lent = Lent {
        kinds: &mut [0u8; TABLE],
        words: &mut [0u64; TABLE],
        count: &mut 0,
    };
    let mut listed = Lent {
        kinds: &mut [0u8; TABLE],
        words: &mut [0u64; TABLE],
        count: &mut 0,
    };
    all_blocks(rt, reader, &mut lent, &mut listed)
}
