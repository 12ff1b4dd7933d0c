// The table of a list of cells before it has wings: each cell is read, put in ascending order and written.
#![tactic(auto)]

mod all;
mod blank;
mod cells;
mod ranked;

ghost use Rattle.std.specs.Prelude.{true, ◌≡◌, ℕ, ◌<◌, ◌≤◌, length, get_or};
ghost use Rattle.words.specs.Records.{part};
ghost use Rattle.records.specs.Layout.{list_length, list_size, table_length};
ghost use Rattle.soundness.specs.Inner.Certified.{Fine};
ghost use Rattle.gathering.specs.Inner.Gathering.{blank_table};

use crate::all::{gather_all, gather_wide};
use soundness::rows::all_fine;

// Writes the table of the s cells of a list, all wings empty. True says that the sign words are 0 and 1, and that all records are fine. Rows of
// up to five are tested as they are read, where the compiler knows the dimension and writes the loops out; longer ones are sorted faster by rank.
pub fn gather(d: usize, v: usize, s: usize, cells: &[u16], table: &mut [u16]) -> bool
    requires { (d ≤ 7) × (s ≤ 4096) × (length cells.now ≡ list_length d s) × (length table.old ≡ table_length d s) }
    ensures table { table.new ≡ blank_table d s cells.now }
    ensures fine { result ≡ true → (p : ℕ) → p < s → Fine d v table.new p }
    ensures signs { result ≡ true → (p : ℕ) → p < s → get_or (part (list_size d) p cells.now) 0 0 ≤ 1 }
{
    if d == 1 {
        return gather_all::<true>(1, v, s, cells, table);
    }
    if d == 2 {
        return gather_all::<true>(2, v, s, cells, table);
    }
    if d == 3 {
        return gather_all::<true>(3, v, s, cells, table);
    }
    if d == 4 {
        return gather_all::<true>(4, v, s, cells, table);
    }
    let signed = gather_wide(d, v, s, cells, table);
    let fine = all_fine(d, v, s, table);
    signed & fine
}
