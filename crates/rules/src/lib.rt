// Limits and refusals that all calls share.
#![tactic(auto)]

pub mod limits;
pub mod refusal;
