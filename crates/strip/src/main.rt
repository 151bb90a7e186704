// The program `strip`: the key strip of the expression in nodes.bin, as bytes for a stack calculator.
// Standard output has the strip and nothing else; a refusal is said on standard error, and then nothing is printed.
#![tactic(auto)]

use inputs::FILE_ROOM;
use lent::Lent;
use outputs::Failed;
use pool::LIMIT;
use refusals::Refusal;
use std::io::{Eprint, Print};

// The strip, put at the front of an output: the file's nodes are read into an empty pool. How many bytes it has.
fn strip_of(file: &[u8], strip: &mut [u8]) -> Result<u64, Refusal> {
    let mut kinds = [0u8; LIMIT];
    let mut words = [0u64; LIMIT];
    let mut count = 0;
    let root = engine_file::read(&mut Lent::new(&mut kinds, &mut words, &mut count), file)?;
    engine_strip::strip(&kinds, &words, count, root, strip)
}

// The bytes of the strip, or the refusal.
fn strip_file(rt: &(impl Print + Eprint), file: &[u8]) -> Result<(), Failed> {
    let mut strip = [0u8; low_bytes::TEXT_MAX];
    let n = strip_of(file, &mut strip).map_err(|refusal| outputs::say_refused(rt, refusal))?;
    outputs::put(rt, strip.get(..n as usize).unwrap_or(b""))
}

// What failed has been told. A missing file counts as 0 bytes.
fn run(rt: &HostRuntime) -> Result<(), Failed> {
    let mut file = [0u8; FILE_ROOM];
    let n = inputs::read_nodes(rt, &mut file)?.unwrap_or(0);
    strip_file(rt, &file[..n])
}

fn main(rt: HostRuntime) {
    let _ = run(&rt);
}
