// Shows factorials: 0! to 20!, and that of the greatest number there is, 2^64 - 1. Expected are Python's math.factorial, and 12 from 19! on by document 01.
#![tactic(auto)]

use std::io;
use std::io::Print;

// A line: the number, and its factorial or the refusal.
fn put_factorial(rt: &impl Print, n: u64) -> io::Result<()> {
    match factorial::factorial(n) {
        Ok(z) => println!(rt; "{n}!: {z}"),
        Err(refusal) => println!(rt; "{n}!: refused {}", refusal.number()),
    }
}

fn main(rt: HostRuntime) -> io::Result<()> {
    for n in 0..=20u64 {
        put_factorial(&rt, n)?;
    }
    put_factorial(&rt, u64::MAX)
}
