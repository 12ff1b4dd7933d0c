// The words of a swept table, written.
#![tactic(auto)]

mod faces;
mod heads;
mod places;
mod raising;
mod reading;
pub mod sides;
mod vertices;
mod wings;
pub mod writing;
