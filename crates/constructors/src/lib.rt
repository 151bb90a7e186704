// The definitions of the constructors are in specs/; the code is in the crates above.
#![tactic(auto)]

// How many constructors may run inside one another, where the outermost is called from outside.
pub const DEPTH: u32 = 200;
