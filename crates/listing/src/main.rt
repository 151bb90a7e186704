// The program `listing`: the keys of the strip in the file that its argument names, a line each.
// Nothing is printed before the whole strip is tested.
#![tactic(auto)]

use inputs::STRIP_ROOM;
use key_texts::LINE_ROOM;
use outputs::Failed;
use refusals::Refusal;
use std::io::{Eprint, Print};

// The keys one after the other.
fn list(rt: &(impl Print + Eprint), strip: &[u8]) -> Result<(), Failed> {
    let mut out = [0u8; LINE_ROOM];
    let mut at = 0;
    // The next key's place is known once the key is read.
    while at < strip.len() {
        let line = key_texts::line_at(strip, at, &mut out);
        outputs::put(rt, &out[..line.end])?;
        at = line.next;
    }
    Ok(())
}

// What failed has been told.
fn run(rt: &HostRuntime) -> Result<(), Failed> {
    let mut room = [0u8; STRIP_ROOM];
    let n = inputs::read_strip(rt, &mut room)?;
    if strip_run::is_strip(&room[..n]) {
        return list(rt, &room[..n]);
    }
    outputs::put_refused(rt, Refusal::WrongStrip)
}

fn main(rt: HostRuntime) {
    let _ = run(&rt);
}
