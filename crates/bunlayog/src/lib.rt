// The entry points as C functions: include/bunlayog.h declares them. Each answers 0 or the refusal number of document 01.
#![tactic(auto)]

pub mod build;
pub mod expansion_entries;
pub mod expansion_one;
pub mod expansion_two;
pub mod expansion_walk;
pub mod file;
pub mod printing;
pub mod strip;
pub mod values;
pub mod walk;
