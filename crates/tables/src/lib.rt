// Cells in memory: read, put in order, tested, given their wings; the table of a list; the soundness of a table.
#![tactic(auto)]

mod adjacency;
pub mod gather;
pub mod sound;
mod table;
pub mod tabled;
mod take;
