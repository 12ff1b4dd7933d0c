// The lines of the vertices: their lengths, and written.
ghost use Rattle.std.specs.Prelude.{◌≡◌, ◌+◌, ◌≤◌, length};
ghost use Rattle.words.specs.Inner.Placed.{Put};
ghost use Rattle.listing.specs.Lines.{vertex_line, vertex_lines};
ghost use Rattle.listing.specs.Inner.Parts.{VertexOf, Points};

use printing::lengths::{coordinate_len, digits_len};
use printing::lines::vertex_line;

fn vertex_len(n: usize, p: usize, points: &[f64]) -> usize
    requires { VertexOf n p points.now }
    ensures { result ≡ length (vertex_line n points.now p) }
{
    let mut count = 3 + digits_len(p as u64);
    let base = p * n;
    for x in &points[base..base + n] {
        count += 1 + coordinate_len(*x);
    }
    count
}

pub(crate) fn vertices_len(n: usize, v: usize, points: &[f64]) -> usize
    requires { Points n v points.now }
    ensures { result ≡ length (vertex_lines n v points.now) }
{
    let mut count = 0;
    for p in 0..v {
        count += vertex_len(n, p, points);
    }
    count
}

fn put_vertex(n: usize, p: usize, points: &[f64], buf: &mut [u8], at: usize) -> usize
    requires { VertexOf n p points.now × (at + length (vertex_line n points.now p) ≤ length buf.old) }
    ensures { Put at (vertex_line n points.now p) buf.old result buf.new }
{
    let base = p * n;
    let end = base + n;
    let number = [p as u16];
    vertex_line(buf, at, b"v", &number, &points[base..end])
}

pub(crate) fn put_vertices(n: usize, v: usize, points: &[f64], buf: &mut [u8], at: usize) -> usize
    requires { Points n v points.now × (at + length (vertex_lines n v points.now) ≤ length buf.old) }
    ensures { Put at (vertex_lines n v points.now) buf.old result buf.new }
{
    let mut cur = at;
    for p in 0..v {
        cur = put_vertex(n, p, points, buf, cur);
    }
    cur
}
