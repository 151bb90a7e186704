// What the programs print. Where something cannot be written, standard error is told.
#![tactic(auto)]

use refusals::Refusal;
use std::fmt::InlineText;
use std::io;
use std::io::{Eprint, Print};

// Room for the text of any error.
const ERROR_ROOM: usize = 256;

// What std puts behind the text of an error of the system's, before its number.
const BEFORE_NUMBER: &str = " (os error ";

// That something failed. Standard error has been told what and why, unless it takes nothing.
#[derive(Clone, Copy, Debug, PartialEq, Eq)]
pub struct Failed;

// A name as text, which is all that std prints; one that is no text goes by a word.
fn shown(name: &[u8]) -> &str {
    str::from_utf8(name).unwrap_or("a name that is no text")
}

// A line to standard error: what failed, a colon and why. Where standard error takes nothing, it is told nowhere.
pub fn say(rt: &impl Eprint, what: &[u8], why: &str) -> Failed {
    let what = shown(what);
    let _ = eprintln!(rt; "{what}: {why}");
    Failed
}

// The same, with an error's text.
pub fn say_failed(rt: &impl Eprint, what: &[u8], error: io::Error) -> Failed {
    let text = InlineText::<ERROR_ROOM>::of(error);
    let all = text.as_str();
    match all.split_once(BEFORE_NUMBER) {
        Some((why, _)) => say(rt, what, why),
        None => say(rt, what, all),
    }
}

// How a program is to be called.
pub fn say_usage(rt: &impl Eprint, usage: &str) -> Failed {
    let _ = eprintln!(rt; "{usage}");
    Failed
}

// That there is no file of that name.
pub fn say_missing(rt: &impl Eprint, name: &[u8]) -> Failed {
    say(rt, name, "No such file or directory")
}

// What was written to standard output, or that it failed, which standard error is told.
fn told(rt: &impl Eprint, written: io::Result<()>) -> Result<(), Failed> {
    written.map_err(|error| say_failed(rt, b"standard output", error))
}

// Bytes to standard output.
pub fn put(rt: &(impl Print + Eprint), bytes: &[u8]) -> Result<(), Failed> {
    told(rt, rt.write_all(bytes))
}

// A refusal as the answer: `refused`, a space and the number.
pub fn put_refused(rt: &(impl Print + Eprint), refusal: Refusal) -> Result<(), Failed> {
    told(rt, println!(rt; "refused {}", refusal.number()))
}

// A refusal where standard output has only what is asked for.
pub fn say_refused(rt: &impl Eprint, refusal: Refusal) -> Failed {
    let _ = eprintln!(rt; "refused {}", refusal.number());
    Failed
}
