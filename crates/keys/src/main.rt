// The program `keys`: runs the strip in the file that its argument names, over the values on the line of standard input.
#![tactic(auto)]

use engine_values::VALUES_MAX;
use inputs::STRIP_ROOM;
use key_values::LINE_MAX;
use outputs::Failed;
use std::env::Env;
use std::fs::Files;
use std::io::{Eprint, Print};

// One place more than values are taken, so that too many are refused.
const VALUES_ROOM: usize = VALUES_MAX + 1;

// One byte more than a line may have.
const LINE_ROOM: usize = LINE_MAX + 1;

// The answer's line.
fn put_double(rt: &(impl Print + Eprint), x: f64) -> Result<(), Failed> {
    let mut out = [0u8; key_texts::LINE_ROOM];
    let n = key_texts::put_answer(&mut out, x);
    outputs::put(rt, &out[..n])
}

// The strip is looked at once the values are known.
fn run_over(rt: &(impl Env + Files + Print + Eprint), values: &[f64]) -> Result<(), Failed> {
    let mut room = [0u8; STRIP_ROOM];
    let n = inputs::read_strip(rt, &mut room)?;
    match engine_strip::run_strip(&room[..n], values) {
        Ok(x) => put_double(rt, x),
        Err(refusal) => outputs::put_refused(rt, refusal),
    }
}

// The values of the line.
fn run_line(rt: &(impl Env + Files + Print + Eprint), line: &[u8]) -> Result<(), Failed> {
    if LINE_MAX < line.len() {
        return Err(outputs::say(rt, b"standard input", "the line is too long"));
    }
    let mut values = [0.0; VALUES_ROOM];
    match key_values::fill(line, &mut values) {
        Some(n) => run_over(rt, &values[..n]),
        None => outputs::put(rt, b"usage\n"),
    }
}

// What failed has been told.
fn run(rt: &HostRuntime) -> Result<(), Failed> {
    let mut line = [0u8; LINE_ROOM];
    let n = inputs::read_input(rt, &mut rt.stdin(), b"standard input", &mut line)?;
    run_line(rt, &line[..n])
}

fn main(rt: HostRuntime) {
    let _ = run(&rt);
}
