// The boundary faces of a table counted, place by place: that takes less time than a walk that stops at each.
ghost use Rattle.std.specs.Prelude.{◌≡◌, ◌+◌, ◌≤◌, length};
ghost use Rattle.records.specs.Inner.Inside.{Table, Inside};
ghost use Rattle.boundary.specs.Inner.Walk.{table_faces, faces_from};

use crate::walk::on_boundary;

// Those of cell p.
fn count_cell(d: usize, s: usize, table: &[u16], p: usize) -> usize
    requires { Inside d s p table.now }
    ensures { result + length (faces_from d s table.now (p + 1) 0) ≡ length (faces_from d s table.now p 0) }
{
    let mut n: usize = 0;
    for a in 0..d + 1 {
        if on_boundary(d, s, table, p, a) {
            n += 1;
        }
    }
    n
}

// Those of all cells.
fn count_all(d: usize, s: usize, table: &[u16]) -> usize
    requires { Table d s table.now }
    ensures count { result ≡ length (table_faces d s table.now) }
    ensures few { result ≤ 32768 }
{
    let mut n: usize = 0;
    for p in 0..s {
        n += count_cell(d, s, table, p);
    }
    n
}

// The same; where the compiler knows the dimension it writes the loops out.
pub fn count_faces(d: usize, s: usize, table: &[u16]) -> usize
    requires { Table d s table.now }
    ensures count { result ≡ length (table_faces d s table.now) }
    ensures few { result ≤ 32768 }
{
    if d == 1 {
        return count_all(1, s, table);
    }
    if d == 2 {
        return count_all(2, s, table);
    }
    if d == 3 {
        return count_all(3, s, table);
    }
    if d == 4 {
        return count_all(4, s, table);
    }
    if d == 5 {
        return count_all(5, s, table);
    }
    if d == 6 {
        return count_all(6, s, table);
    }
    if d == 7 {
        return count_all(7, s, table);
    }
    count_all(d, s, table)
}
