// The lines of the boundary faces: their count and lengths, and written. A face's numbers go to a small array. The version
// tells whether its material is among them.
ghost use Rattle.std.specs.Prelude.{◌≡◌, [], ◌∷◌, ◌+◌, ◌≤◌, ◌<◌, length, take};
ghost use Rattle.simplex.specs.SignWords.{sign_of};
ghost use Rattle.records.specs.Inner.Inside.{Table, Inside};
ghost use Rattle.boundary.specs.Inner.Walk.{face_at, table_faces};
ghost use Rattle.words.specs.Inner.Placed.{Put};
ghost use Rattle.listing.specs.Lines.{sign_text, face_fields, face_line, face_lines};
ghost use Rattle.listing.specs.Inner.Parts.{SizeOf};

use boundary::face::{face_sign, face_vertex};
use boundary::walk::next_face;
use printing::fields::fields_len;
use printing::lines::first_line;
use records::reading::material;
use rules::limits::with_materials;

// How many faces, and how many bytes their lines have.
#[derive(Drop)]
pub struct Size {
    pub count: usize,
    pub bytes: usize,
}

fn sign_byte(word: u16) -> u8
    ensures { result ∷ [] ≡ sign_text (sign_of word) }
{
    if word == 0 {
        return b'+';
    }
    b'-'
}

// The vertices of face a of cell p go to the start of the row.
fn fill_row(d: usize, s: usize, table: &[u16], p: usize, a: usize, row: &mut [u16])
    requires { Inside d s p table.now × (a ≤ d) × (d ≤ length row.old) }
    ensures { take d row.new ≡ (face_at d table.now p a).row }
{
    for k in 0..d {
        row[k] = face_vertex(d, s, table, p, a, k);
    }
}

// The numbers of its line go to the start of the row; how many.
fn fill_fields(
    version: usize,
    d: usize,
    s: usize,
    table: &[u16],
    p: usize,
    a: usize,
    row: &mut [u16],
) -> usize
    requires { Inside d s p table.now × (a ≤ d) × (d < length row.old) }
    ensures upper_bound { result ≤ d + 1 }
    ensures row_after { take result row.new ≡ face_fields version (face_at d table.now p a) }
{
    fill_row(d, s, table, p, a, row);
    if with_materials(version) {
        row[d] = material(d, s, table, p);
        return d + 1;
    }
    d
}

fn face_len(version: usize, d: usize, s: usize, table: &[u16], p: usize, a: usize) -> usize
    requires { Inside d s p table.now × (a ≤ d) }
    ensures value { result ≡ length (face_line version (face_at d table.now p a)) }
    ensures upper_bound { result ≤ 256 }
{
    let mut row = [0u16; 8];
    let n = fill_fields(version, d, s, table, p, a, &mut row);
    2 + fields_len(&row[..n])
}

fn put_face(
    version: usize,
    d: usize,
    s: usize,
    table: &[u16],
    p: usize,
    a: usize,
    buf: &mut [u8],
    at: usize,
) -> usize
    requires { Inside d s p table.now × (a ≤ d) × (at + length (face_line version (face_at d table.now p a)) ≤ length buf.old) }
    ensures { Put at (face_line version (face_at d table.now p a)) buf.old result buf.new }
{
    let sign = [sign_byte(face_sign(d, s, table, p, a))];
    let mut row = [0u16; 8];
    let n = fill_fields(version, d, s, table, p, a, &mut row);
    first_line(buf, at, &sign, &row[..n])
}

// The boundary faces of a table.
pub(crate) fn faces_size(version: usize, d: usize, s: usize, table: &[u16]) -> Size
    requires { Table d s table.now }
    ensures size_of { SizeOf version (table_faces d s table.now) result.count result.bytes }
    ensures count_bound { (result.count ≤ 32768) × (result.bytes ≤ 8388608) }
{
    let mut count = 0;
    let mut bytes = 0;
    let mut at = next_face(d, s, table, 0, 0);
    while at.cell < s {
        count += 1;
        bytes += face_len(version, d, s, table, at.cell, at.position);
        at = next_face(d, s, table, at.cell, at.position + 1);
    }
    Size { count, bytes }
}

pub(crate) fn put_faces(
    version: usize,
    d: usize,
    s: usize,
    table: &[u16],
    buf: &mut [u8],
    at: usize,
) -> usize
    requires { Table d s table.now × (at + length (face_lines version (table_faces d s table.now)) ≤ length buf.old) }
    ensures { Put at (face_lines version (table_faces d s table.now)) buf.old result buf.new }
{
    let mut cur = at;
    let mut place = next_face(d, s, table, 0, 0);
    while place.cell < s {
        cur = put_face(version, d, s, table, place.cell, place.position, buf, cur);
        place = next_face(d, s, table, place.cell, place.position + 1);
    }
    cur
}
