// Numbers in print, and lines of them, put into lent bytes.
#![tactic(auto)]

pub mod fields;
pub mod lengths;
pub mod line_writer;
pub mod lines;
pub mod nearest;
pub mod writing;
