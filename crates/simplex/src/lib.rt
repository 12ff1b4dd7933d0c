// Signed simplices: a row of vertices in ascending order, and the sign of the reordering.
#![tactic(auto)]

pub mod sign_words;
pub mod sort;
