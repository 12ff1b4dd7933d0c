// The wings in uploaded order as bytes, from a list of cells and its table.
ghost use Rattle.std.specs.Prelude.{◌≡◌, ◌+◌, ◌*◌, ◌≤◌, length};
ghost use Rattle.words.specs.Bytes.{bytes_of};
ghost use Rattle.words.specs.Inner.Placed.{placed, Put};
ghost use Rattle.records.specs.Layout.{list_length, wings_size, wings_length};
ghost use Rattle.records.specs.Inner.Inside.{Table, Inside};
ghost use Rattle.wing.specs.Inner.Uploaded.{uploaded_row, uploaded_rows};

use wing::uploaded::uploaded_wing;

// The wings of cell p from `at` on; the place behind them.
fn cell_bytes(
    d: usize,
    s: usize,
    cells: &[u16],
    table: &[u16],
    p: usize,
    at: usize,
    out: &mut [u8],
) -> usize
    requires { Inside d s p table.now × (length cells.now ≡ list_length d s) × (s ≤ 4096)
        × (at + wings_size d * 2 ≤ length out.old) }
    ensures { Put at (bytes_of (uploaded_row d cells.now table.now p)) out.old result out.new }
{
    let mut next = at;
    for j in 0..d + 1 {
        let w = uploaded_wing(d, s, cells, table, p, j);
        out[next..next + 2].copy_from_slice(&w.to_le_bytes());
        next += 2;
    }
    next
}

// The wings of all cells, from the start of the bytes.
fn uploaded_all(d: usize, s: usize, cells: &[u16], table: &[u16], out: &mut [u8])
    requires { Table d s table.now × (length cells.now ≡ list_length d s) × (wings_length d s * 2 ≤ length out.old) }
    ensures { out.new ≡ placed 0 (bytes_of (uploaded_rows d s cells.now table.now)) out.old }
{
    let mut next: usize = 0;
    for p in 0..s {
        next = cell_bytes(d, s, cells, table, p, next, out);
    }
}

// The same; where the compiler knows the dimension it writes the loops out.
pub fn uploaded_bytes(d: usize, s: usize, cells: &[u16], table: &[u16], out: &mut [u8])
    requires { Table d s table.now × (length cells.now ≡ list_length d s) × (wings_length d s * 2 ≤ length out.old) }
    ensures { out.new ≡ placed 0 (bytes_of (uploaded_rows d s cells.now table.now)) out.old }
{
    if d == 1 {
        uploaded_all(1, s, cells, table, out);
        return;
    }
    if d == 2 {
        uploaded_all(2, s, cells, table, out);
        return;
    }
    if d == 3 {
        uploaded_all(3, s, cells, table, out);
        return;
    }
    if d == 4 {
        uploaded_all(4, s, cells, table, out);
        return;
    }
    if d == 5 {
        uploaded_all(5, s, cells, table, out);
        return;
    }
    if d == 6 {
        uploaded_all(6, s, cells, table, out);
        return;
    }
    uploaded_all(d, s, cells, table, out);
}
