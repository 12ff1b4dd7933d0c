// The records of a table but for their wings: a sign word, a material, ascending vertices below v.
ghost use Rattle.std.specs.Prelude.{◌≡◌, true, ℕ, suc, ◌<◌};
ghost use Rattle.records.specs.Inner.Inside.{Table, Inside, vertex_in};
ghost use Rattle.soundness.specs.Inner.Certified.{Fine};

use records::reading::{material, sign, vertex};
use rules::limits::Shape;

// Whether the vertices of cell p ascend. Each test is a branch, which nearly always goes the same way.
fn ascends(d: usize, s: usize, table: &[u16], p: usize) -> bool
    requires { Inside d s p table.now }
    ensures { result ≡ true → (j : ℕ) → j < d → vertex_in d table.now p j < vertex_in d table.now p (suc j) }
{
    for j in 0..d {
        if vertex(d, s, table, p, j + 1) <= vertex(d, s, table, p, j) {
            return false;
        }
    }
    true
}

// Whether record p is so.
fn is_fine(d: usize, v: usize, s: usize, table: &[u16], p: usize) -> bool
    requires { Inside d s p table.now }
    ensures { result ≡ true → Fine d v table.now p }
{
    if 1 < sign(d, s, table, p) {
        return false;
    }
    if Shape::MAX_MATERIAL < material(d, s, table, p) {
        return false;
    }
    if v <= usize::from(vertex(d, s, table, p, d)) {
        return false;
    }
    ascends(d, s, table, p)
}

// Whether all are.
fn every_fine(d: usize, v: usize, s: usize, table: &[u16]) -> bool
    requires { Table d s table.now }
    ensures { result ≡ true → (p : ℕ) → p < s → Fine d v table.now p }
{
    for p in 0..s {
        if !is_fine(d, v, s, table, p) {
            return false;
        }
    }
    true
}

// The same; where the compiler knows the dimension it writes the loops out.
pub fn all_fine(d: usize, v: usize, s: usize, table: &[u16]) -> bool
    requires { Table d s table.now }
    ensures { result ≡ true → (p : ℕ) → p < s → Fine d v table.now p }
{
    if d == 1 {
        return every_fine(1, v, s, table);
    }
    if d == 2 {
        return every_fine(2, v, s, table);
    }
    if d == 3 {
        return every_fine(3, v, s, table);
    }
    if d == 4 {
        return every_fine(4, v, s, table);
    }
    if d == 5 {
        return every_fine(5, v, s, table);
    }
    if d == 6 {
        return every_fine(6, v, s, table);
    }
    if d == 7 {
        return every_fine(7, v, s, table);
    }
    every_fine(d, v, s, table)
}
