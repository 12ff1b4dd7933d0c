// The boundary faces of a table, written from the start of the lent buffer.
ghost use Rattle.std.specs.Prelude.{◌≡◌, ◌+◌, ◌≤◌, length};
ghost use Rattle.words.specs.Inner.Placed.{Put};
ghost use Rattle.records.specs.Layout.{face_words, faces_words};
ghost use Rattle.records.specs.Inner.Inside.{Table, Inside};
ghost use Rattle.boundary.specs.Inner.Walk.{face_at, table_faces};

use crate::face::face_word;
use crate::walk::next_face;
use records::sizes::face_size;

// The record of face a of cell p from `at` on; the place behind it.
fn write_face(
    d: usize,
    s: usize,
    table: &[u16],
    p: usize,
    a: usize,
    at: usize,
    out: &mut [u16],
) -> usize
    requires { Inside d s p table.now × (a ≤ d) × (at + length (face_words (face_at d table.now p a)) ≤ length out.old) }
    ensures { Put at (face_words (face_at d table.now p a)) out.old result out.new }
{
    let size = face_size(d);
    for j in 0..size {
        out[at + j] = face_word(d, s, table, p, a, j);
    }
    at + size
}

// All records; the place behind them.
pub(crate) fn write_faces(d: usize, s: usize, table: &[u16], out: &mut [u16]) -> usize
    requires { Table d s table.now × (length (faces_words (table_faces d s table.now)) ≤ length out.old) }
    ensures { Put 0 (faces_words (table_faces d s table.now)) out.old result out.new }
{
    let mut next: usize = 0;
    let mut at = next_face(d, s, table, 0, 0);
    while at.cell < s {
        next = write_face(d, s, table, at.cell, at.position, next, out);
        at = next_face(d, s, table, at.cell, at.position + 1);
    }
    next
}
