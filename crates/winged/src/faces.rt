// The call faces from bytes to bytes: a record at a time, since all of them are too many for a local array.
ghost use Rattle.std.specs.Prelude.{◌≡◌, true, ◌+◌, ◌*◌, ◌≤◌, length};
ghost use Rattle.rules.specs.Limits.{max_dimension};
ghost use Rattle.rules.specs.Shapes.{shape_ok};
ghost use Rattle.words.specs.Inner.Placed.{placed, Put};
ghost use Rattle.records.specs.Layout.{table_length};
ghost use Rattle.records.specs.Inner.Inside.{Table, Inside};
ghost use Rattle.boundary.specs.Inner.Walk.{face_at, table_faces};
ghost use Rattle.winged.specs.Host.{host_faces, host_faces_buffer};
ghost use Rattle.winged.specs.Inner.Sent.{face_bytes, faces_bytes, faces_answer, faces_after, table_room};

use crate::sending::answered;
use boundary::counting::count_faces;
use boundary::face::face_word;
use boundary::walk::next_face;
use records::sizes::{face_size, table_words};
use rules::limits::Shape;
use rules::refusal::Refusal;
use soundness::is_sound;
use words::copy::decode;

// The record of face a of cell p as bytes from `at` on; the place behind them.
fn face_bytes(
    d: usize,
    s: usize,
    table: &[u16],
    p: usize,
    a: usize,
    at: usize,
    out: &mut [u8],
) -> usize
    requires { Inside d s p table.now × (a ≤ d) × (at + length (face_bytes (face_at d table.now p a)) ≤ length out.old) }
    ensures { Put at (face_bytes (face_at d table.now p a)) out.old result out.new }
{
    let mut next = at;
    for j in 0..face_size(d) {
        let [low, high] = face_word(d, s, table, p, a, j).to_le_bytes();
        out[next] = low;
        out[next + 1] = high;
        next += 2;
    }
    next
}

// All records, from the start of the bytes.
fn write_all(d: usize, s: usize, table: &[u16], out: &mut [u8])
    requires { Table d s table.now × (length (faces_bytes (table_faces d s table.now)) ≤ length out.old) }
    ensures { out.new ≡ placed 0 (faces_bytes (table_faces d s table.now)) out.old }
{
    let mut next = 0;
    let mut at = next_face(d, s, table, 0, 0);
    while at.cell < s {
        next = face_bytes(d, s, table, at.cell, at.position, next, out);
        at = next_face(d, s, table, at.cell, at.position + 1);
    }
}

// The same; where the compiler knows the dimension it writes the loop out.
fn write_bytes(d: usize, s: usize, table: &[u16], out: &mut [u8])
    requires { Table d s table.now × (length (faces_bytes (table_faces d s table.now)) ≤ length out.old) }
    ensures { out.new ≡ placed 0 (faces_bytes (table_faces d s table.now)) out.old }
{
    if d == 1 {
        write_all(1, s, table, out);
        return;
    }
    if d == 2 {
        write_all(2, s, table, out);
        return;
    }
    if d == 3 {
        write_all(3, s, table, out);
        return;
    }
    if d == 4 {
        write_all(4, s, table, out);
        return;
    }
    if d == 5 {
        write_all(5, s, table, out);
        return;
    }
    if d == 6 {
        write_all(6, s, table, out);
        return;
    }
    if d == 7 {
        write_all(7, s, table, out);
        return;
    }
    write_all(d, s, table, out);
}

// Faces of a table of the right length.
fn faces_from(d: usize, v: usize, s: usize, table: &[u16], out: &mut [u8]) -> i64
    requires { (shape_ok max_dimension d v s ≡ true) × (length table.now ≡ table_length d s) }
    ensures answer { result ≡ faces_answer d v s table.now out.old }
    ensures buffer { out.new ≡ faces_after d v s table.now out.old }
{
    if !is_sound(d, v, s, table) {
        return answered(Err(Refusal::Unsound));
    }
    let n = count_faces(d, s, table) * face_size(d);
    if out.len() / 2 < n {
        return answered(Err(Refusal::NoRoom));
    }
    write_bytes(d, s, table, out);
    n as i64
}

// In a room for a table of so many words.
fn in_room<const WORDS: usize>(d: usize, v: usize, s: usize, table: &[u8], faces: &mut [u8]) -> i64
    requires { (shape_ok max_dimension d v s ≡ true) × (length table.now ≡ table_length d s * 2) × (table_length d s ≤ WORDS)
        × (WORDS ≤ table_room) }
    ensures answer { result ≡ host_faces d v s table.now faces.old }
    ensures buffer { faces.new ≡ host_faces_buffer d v s table.now faces.old }
{
    let mut words = [0u16; WORDS];
    decode(table, &mut words);
    let n = table.len() / 2;
    faces_from(d, v, s, &words[..n], faces)
}

// The same, with a stack of its own for the room.
#[inline(never)]
fn apart<const WORDS: usize>(d: usize, v: usize, s: usize, table: &[u8], faces: &mut [u8]) -> i64
    requires { (shape_ok max_dimension d v s ≡ true) × (length table.now ≡ table_length d s * 2) × (table_length d s ≤ WORDS)
        × (WORDS ≤ table_room) }
    ensures answer { result ≡ host_faces d v s table.now faces.old }
    ensures buffer { faces.new ≡ host_faces_buffer d v s table.now faces.old }
{
    in_room::<WORDS>(d, v, s, table, faces)
}

// faces in the room for its table. The larger rooms stay apart, so that a call takes the stack of its own room alone.
pub(crate) fn faces_told(d: usize, v: usize, s: usize, table: &[u8], faces: &mut [u8]) -> i64
    ensures answer { result ≡ host_faces d v s table.now faces.old }
    ensures buffer { faces.new ≡ host_faces_buffer d v s table.now faces.old }
{
    if !Shape::within(Shape::MAX_DIMENSION, d, v, s) {
        return answered(Err(Refusal::OutsideLimits));
    }
    let n = table_words(d, s);
    if table.len() != n * 2 {
        return answered(Err(Refusal::WrongLength));
    }
    if n <= 2048 {
        if d == 1 {
            return in_room::<2048>(1, v, s, table, faces);
        }
        return in_room::<2048>(d, v, s, table, faces);
    }
    if n <= 16384 {
        if d == 1 {
            return apart::<16384>(1, v, s, table, faces);
        }
        return apart::<16384>(d, v, s, table, faces);
    }
    if n <= 40960 {
        if d == 1 {
            return apart::<40960>(1, v, s, table, faces);
        }
        return apart::<40960>(d, v, s, table, faces);
    }
    if d == 4 {
        return apart::<73728>(4, v, s, table, faces);
    }
    apart::<73728>(d, v, s, table, faces)
}
