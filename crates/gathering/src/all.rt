// All cells of a list, one after the other.
ghost use Rattle.std.specs.Prelude.{true, ◌≡◌, ℕ, ◌+◌, ◌*◌, ◌<◌, ◌≤◌, length, get_or};
ghost use Rattle.words.specs.Records.{part};
ghost use Rattle.words.specs.Inner.Placed.{placed};
ghost use Rattle.simplex.specs.Order.{ascending};
ghost use Rattle.records.specs.Layout.{cell_in, list_length, list_size, record_size, table_length};
ghost use Rattle.soundness.specs.Inner.Certified.{Fine};
ghost use Rattle.gathering.specs.Inner.Gathering.{FineCell, blank_table, blank_words};

use crate::{cells, ranked};

// Cell p of the list, written as record p of the table: by way of a row of eight, which is tested, or by rank; and whether its sign word is 0 or
// 1, and the rest fine if it is tested.
fn gather_cell<const TESTED: bool>(
    d: usize,
    v: usize,
    p: usize,
    cells: &[u16],
    table: &mut [u16],
) -> bool
    requires d_bound { (d ≤ 7) × (p < 4096) × (p * list_size d + list_size d ≤ length cells.now) }
    requires d_in_bounds { p * record_size d + record_size d ≤ length table.old }
    ensures table { table.new
        ≡ placed (p * record_size d) (blank_words d (ascending (cell_in d cells.now p))) table.old }
    ensures fine { TESTED ≡ true → result ≡ true → FineCell d v cells.now p }
    ensures sign { result ≡ true → get_or (part (list_size d) p cells.now) 0 0 ≤ 1 }
{
    if TESTED {
        return cells::gather_cell(d, v, p, cells, table);
    }
    ranked::gather_cell(d, p, cells, table)
}

// The s cells of the list; and whether all are so.
pub fn gather_all<const TESTED: bool>(
    d: usize,
    v: usize,
    s: usize,
    cells: &[u16],
    table: &mut [u16],
) -> bool
    requires { (d ≤ 7) × (s ≤ 4096) × (length cells.now ≡ list_length d s) × (length table.old ≡ table_length d s) }
    ensures table { table.new ≡ blank_table d s cells.now }
    ensures fine { TESTED ≡ true → result ≡ true → (p : ℕ) → p < s → Fine d v table.new p }
    ensures signs { result ≡ true → (p : ℕ) → p < s → get_or (part (list_size d) p cells.now) 0 0 ≤ 1 }
{
    let mut good = true;
    for p in 0..s {
        good &= gather_cell::<TESTED>(d, v, p, cells, table);
    }
    good
}

// The same by rank; where the compiler knows the dimension it writes the loops out.
pub fn gather_wide(d: usize, v: usize, s: usize, cells: &[u16], table: &mut [u16]) -> bool
    requires { (d ≤ 7) × (s ≤ 4096) × (length cells.now ≡ list_length d s) × (length table.old ≡ table_length d s) }
    ensures table { table.new ≡ blank_table d s cells.now }
    ensures signs { result ≡ true → (p : ℕ) → p < s → get_or (part (list_size d) p cells.now) 0 0 ≤ 1 }
{
    if d == 5 {
        return gather_all::<false>(5, v, s, cells, table);
    }
    if d == 6 {
        return gather_all::<false>(6, v, s, cells, table);
    }
    if d == 7 {
        return gather_all::<false>(7, v, s, cells, table);
    }
    gather_all::<false>(d, v, s, cells, table)
}
