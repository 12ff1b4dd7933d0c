// The wings in uploaded order, from a list of cells and its table: wing j of a cell is the table's at the place that
// uploaded vertex j has in ascending order, and that is how many of the cell's vertices are below it.
ghost use Rattle.std.specs.Prelude.{◌≡◌, ◌+◌, ◌≤◌, length, take, drop};
ghost use Rattle.words.specs.Inner.Placed.{placed};
ghost use Rattle.simplex.specs.Order.{below};
ghost use Rattle.records.specs.Layout.{list_length, wings_size, wings_length};
ghost use Rattle.records.specs.Inner.Inside.{Table, Inside};
ghost use Rattle.wing.specs.Inner.Uploaded.{uploaded_at, uploaded_row, uploaded_rows};

use records::reading::wing;
use records::sizes::{VERTICES, list_size, wings_size};

// How many of the n words from at on are below x. There are always eight turns, which the compiler writes out.
fn rank(n: usize, at: usize, words: &[u16], x: u16) -> usize
    requires { (n ≤ 8) × (at + n ≤ length words.now) }
    ensures { result ≡ below x (take n (drop at words.now)) }
{
    let mut r: usize = 0;
    for i in 0..8 {
        if i < n {
            if words[at + i] < x {
                r += 1;
            }
        }
    }
    r
}

// Wing j of cell p.
pub fn uploaded_wing(d: usize, s: usize, cells: &[u16], table: &[u16], p: usize, j: usize) -> u16
    requires { Inside d s p table.now × (length cells.now ≡ list_length d s) × (s ≤ 4096) × (j ≤ d) }
    ensures { result ≡ uploaded_at d cells.now table.now p j }
{
    let at = p * list_size(d) + VERTICES;
    let place = rank(d + 1, at, cells, cells[at + j]);
    wing(d, s, table, p, place)
}

// Writes the wings of cell p, from `at` on.
fn write_cell(
    d: usize,
    s: usize,
    cells: &[u16],
    table: &[u16],
    p: usize,
    at: usize,
    uploaded: &mut [u16],
)
    requires { Inside d s p table.now × (length cells.now ≡ list_length d s) × (s ≤ 4096)
        × (at + wings_size d ≤ length uploaded.old) }
    ensures { uploaded.new ≡ placed at (uploaded_row d cells.now table.now p) uploaded.old }
{
    for j in 0..8 {
        if d < j {
            return;
        }
        uploaded[at + j] = uploaded_wing(d, s, cells, table, p, j);
    }
}

// Writes the wings of all cells, from the start, and no further.
pub fn write_uploaded(d: usize, s: usize, cells: &[u16], table: &[u16], uploaded: &mut [u16])
    requires { Table d s table.now × (length cells.now ≡ list_length d s) × (wings_length d s ≤ length uploaded.old) }
    ensures { uploaded.new ≡ placed 0 (uploaded_rows d s cells.now table.now) uploaded.old }
{
    let size = wings_size(d);
    for p in 0..s {
        write_cell(d, s, cells, table, p, p * size, uploaded);
    }
}
