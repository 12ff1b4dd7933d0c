// Numbers and floats in bytes, little-endian.
#![tactic(auto)]

pub mod copy;
pub mod little;
