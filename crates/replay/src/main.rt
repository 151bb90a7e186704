// The list of calls on standard input, made again: each call's answer, and every entry of both tables after it, must be those that the list has.
// The answers are the Rust's, and behind them those worked out from document 01 (README.md); this program has the engine alone. The file stdout has the
// number of calls.
#![tactic(auto)]

mod answers;
mod calls;
mod lines;
mod raw;

use std::io;

fn main(rt: HostRuntime) -> io::Result<()> {
    lines::replay(&rt, &mut rt.stdin())
}
