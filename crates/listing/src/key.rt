// The whole key, in the form of a version: its size, and written.
ghost use Rattle.std.specs.Prelude.{◌≡◌, ◌≤◌, length};
ghost use Rattle.records.specs.Inner.Inside.{Table};
ghost use Rattle.boundary.specs.Inner.Walk.{table_faces};
ghost use Rattle.words.specs.Inner.Placed.{Put};
ghost use Rattle.listing.specs.Lines.{first_line, key_text};
ghost use Rattle.listing.specs.Inner.Parts.{Points, KeySize};

use crate::faces::{Size, faces_size, put_faces};
use crate::vertices::{put_vertices, vertices_len};
use printing::lengths::digits_len;
use printing::lines::first_line;

fn first_len(d: usize, n: usize, v: usize, faces: usize) -> usize
    ensures value { result ≡ length (first_line d n v faces) }
    ensures upper_bound { result ≤ 88 }
{
    8 + digits_len(d as u64)
        + digits_len(n as u64)
        + digits_len(v as u64)
        + digits_len(faces as u64)
}

// How many faces the key has, and how many bytes.
pub fn key_size(
    version: usize,
    d: usize,
    n: usize,
    v: usize,
    s: usize,
    table: &[u16],
    points: &[f64],
) -> Size
    requires { Table d s table.now × Points n v points.now }
    ensures { KeySize version d n v points.now (table_faces d s table.now) result.count result.bytes }
{
    let faces = faces_size(version, d, s, table);
    let count = faces.count;
    let bytes = first_len(d, n, v, count) + vertices_len(n, v, points) + faces.bytes;
    Size { count, bytes }
}

// The key from the start of the buffer. Each line is built by a line writer.
pub fn put_key(
    version: usize,
    d: usize,
    n: usize,
    v: usize,
    s: usize,
    faces: usize,
    table: &[u16],
    points: &[f64],
    buf: &mut [u8],
) -> usize
    requires { Table d s table.now × Points n v points.now × (faces ≡ length (table_faces d s table.now))
        × (length (key_text version d n v points.now (table_faces d s table.now)) ≤ length buf.old) }
    ensures { Put 0 (key_text version d n v points.now (table_faces d s table.now)) buf.old result
        buf.new }
{
    let counts = [d as u16, n as u16, v as u16, faces as u16];
    let first = first_line(buf, 0, b"key", &counts);
    let vertices = put_vertices(n, v, points, buf, first);
    put_faces(version, d, s, table, buf, vertices)
}
