// Points and steps.
#![tactic(auto)]

pub mod carrying;
pub mod levels;
pub mod point;
pub mod range;
pub mod step;
