// The program `show`: the expression in nodes.bin as text, for an author who wants to look at a file.
#![tactic(auto)]

use inputs::FILE_ROOM;
use lent::Lent;
use outputs::Failed;
use pool::LIMIT;
use refusals::Refusal;
use std::io::{Eprint, Print};

// The text of the expression, put at the front of an output: the file's nodes are read into an empty pool. How many bytes it has.
fn text_of(file: &[u8], text: &mut [u8]) -> Result<u64, Refusal> {
    let mut kinds = [0u8; LIMIT];
    let mut words = [0u64; LIMIT];
    let mut count = 0;
    let root = engine_file::read(&mut Lent::new(&mut kinds, &mut words, &mut count), file)?;
    engine_print::print(&kinds, &words, count, root, text)
}

// The text and a line end, or the refusal.
fn show_file(rt: &(impl Print + Eprint), file: &[u8]) -> Result<(), Failed> {
    let mut text = [0u8; low_bytes::TEXT_MAX];
    match text_of(file, &mut text) {
        Ok(n) => {
            outputs::put(rt, text.get(..n as usize).unwrap_or(b""))?;
            outputs::put(rt, b"\n")
        }
        Err(refusal) => outputs::put_refused(rt, refusal),
    }
}

// What failed has been told.
fn run(rt: &HostRuntime) -> Result<(), Failed> {
    let mut file = [0u8; FILE_ROOM];
    let n = inputs::read_nodes(rt, &mut file)?.ok_or_else(|| outputs::say_missing(
        rt,
        b"nodes.bin",
    ))?;
    show_file(rt, &file[..n])
}

fn main(rt: HostRuntime) {
    let _ = run(&rt);
}
