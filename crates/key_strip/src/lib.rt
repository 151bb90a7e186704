// Key strips: definitions and laws, and the number of places. The code that makes strips is in strip_write, the machine in strip_run.
#![tactic(auto)]

// How many places the machine has.
pub const PLACES: u32 = 128;
