// What a file says, part by part: numbers, floats, step and cells.
#![tactic(auto)]

pub mod cells;
pub mod floats;
pub mod numbers;
pub mod step;
