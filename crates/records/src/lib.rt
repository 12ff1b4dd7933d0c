// Lists of cells, tables and faces as words: how long they are, and what stands where.
#![tactic(auto)]

pub mod reading;
pub mod sizes;
