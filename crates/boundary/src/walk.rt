// A walk along the boundary faces of a table, by cell and then position.
ghost use Rattle.std.specs.Prelude.{◌≡◌, ◌+◌, ◌≤◌};
ghost use Rattle.records.specs.Inner.Inside.{Table, Inside};
ghost use Rattle.boundary.specs.Inner.Walk.{on_boundary, NextPosition, Between, NextCell, NextFace};

use records::reading::wing;
use records::sizes::EMPTY;

// Position `position` of cell `cell`.
#[derive(Drop)]
pub struct Place {
    pub cell: usize,
    pub position: usize,
}

// Whether wing a of cell p is empty; a cell of dimension 0 has no face.
pub(crate) fn on_boundary(d: usize, s: usize, table: &[u16], p: usize, a: usize) -> bool
    requires { Inside d s p table.now × (a ≤ d) }
    ensures { result ≡ on_boundary d table.now p a }
{
    if d == 0 {
        return false;
    }
    wing(d, s, table, p, a) == EMPTY
}

// The first position of cell p on the boundary, from a on; d + 1 if there is none.
fn next_position(d: usize, s: usize, table: &[u16], p: usize, a: usize) -> usize
    requires { Inside d s p table.now }
    ensures { NextPosition d s table.now p a result }
{
    for position in a..d + 1 {
        if on_boundary(d, s, table, p, position) {
            return position;
        }
    }
    d + 1
}

// Whether cell p has a face on the boundary. All are looked at, so that no branch depends on the table.
fn any_bare(d: usize, s: usize, table: &[u16], p: usize) -> bool
    requires { Inside d s p table.now }
    ensures { Between d s table.now p (p + 1) 0 result }
{
    let mut bare = false;
    for a in 0..d + 1 {
        bare |= on_boundary(d, s, table, p, a);
    }
    bare
}

// The first cell that has one, from p on; s if there is none.
fn cell_from(d: usize, s: usize, table: &[u16], p: usize) -> usize
    requires { Table d s table.now × (p ≤ s) }
    ensures { NextCell d s table.now p result }
{
    for cell in p..s {
        if any_bare(d, s, table, cell) {
            return cell;
        }
    }
    s
}

// The same; where the compiler knows the dimension it writes the loops out.
fn next_cell(d: usize, s: usize, table: &[u16], p: usize) -> usize
    requires { Table d s table.now × (p ≤ s) }
    ensures { NextCell d s table.now p result }
{
    if d == 1 {
        return cell_from(1, s, table, p);
    }
    if d == 2 {
        return cell_from(2, s, table, p);
    }
    if d == 3 {
        return cell_from(3, s, table, p);
    }
    if d == 4 {
        return cell_from(4, s, table, p);
    }
    if d == 5 {
        return cell_from(5, s, table, p);
    }
    if d == 6 {
        return cell_from(6, s, table, p);
    }
    if d == 7 {
        return cell_from(7, s, table, p);
    }
    cell_from(d, s, table, p)
}

// The first place on the boundary in cell p or behind it; position 0 of cell s if there is none.
fn first_face(d: usize, s: usize, table: &[u16], p: usize) -> Place
    requires { Table d s table.now × (p ≤ s) }
    ensures { NextFace d s table.now p 0 result.cell result.position }
{
    let cell = next_cell(d, s, table, p);
    if cell < s {
        let position = next_position(d, s, table, cell, 0);
        return Place { cell, position };
    }
    Place { cell, position: 0 }
}

// The first place on the boundary at position a of cell p or behind it; position 0 of cell s if there is none.
pub fn next_face(d: usize, s: usize, table: &[u16], p: usize, a: usize) -> Place
    requires { Table d s table.now × (p ≤ s) }
    ensures { NextFace d s table.now p a result.cell result.position }
{
    if p == s {
        return Place {
            cell: p,
            position: 0,
        };
    }
    let position = next_position(d, s, table, p, a);
    if position <= d {
        return Place { cell: p, position };
    }
    first_face(d, s, table, p + 1)
}
