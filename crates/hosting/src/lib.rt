// The calls list, move and read from bytes to bytes: words of 16 bits and floats by their bits, little-endian.
#![tactic(auto)]

pub mod floats;
pub mod lists;
pub mod moving;
pub mod reading;
pub mod step_bits;
