// What the program key prints, from a file's bytes.
#![tactic(auto)]

pub mod key;
mod stages;
