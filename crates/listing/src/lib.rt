// The key in print.
#![tactic(auto)]

pub mod faces;
pub mod key;
pub mod vertices;
