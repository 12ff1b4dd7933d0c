// The header of a file: its numbers, and rows 1 to 3 of the refusal table.
ghost use Rattle.std.specs.Prelude.{◌≡◌, not, ◌+◌, ◌<◌, ◌≤◌, eqb, length, get_or};
ghost use Rattle.file.specs.File.{header_size, version_of, dimension_of, axes_of, vertex_count_of, cell_count_of, steps_of, point_count};
ghost use Rattle.file.specs.File.{cells_start, cell_head, cell_bytes, file_length};
ghost use Rattle.file.specs.Tests.{not_ours, numbers_fit, numbers_ok};

use rules::limits::{Shape, axes_ok, steps_ok, version_ok, with_materials};
use words::little;

pub(crate) fn byte_at(b: &[u8], at: usize) -> usize
    requires { at < length b.now }
    ensures { (result ≡ get_or b.now at 0) × (result < 256) }
{
    usize::from(b[at])
}

pub fn version(b: &[u8]) -> usize
    requires { header_size ≤ length b.now }
    ensures { (result ≡ version_of b.now) × (result < 65536) }
{
    usize::from(little::word16(b, 3))
}

pub fn dimension(b: &[u8]) -> usize
    requires { header_size ≤ length b.now }
    ensures { (result ≡ dimension_of b.now) × (result < 256) }
{
    byte_at(b, 5)
}

pub fn axes(b: &[u8]) -> usize
    requires { header_size ≤ length b.now }
    ensures { (result ≡ axes_of b.now) × (result < 256) }
{
    byte_at(b, 6)
}

pub fn vertex_count(b: &[u8]) -> usize
    requires { header_size ≤ length b.now }
    ensures { (result ≡ vertex_count_of b.now) × (result < 65536) }
{
    usize::from(little::word16(b, 7))
}

pub fn cell_count(b: &[u8]) -> usize
    requires { header_size ≤ length b.now }
    ensures { (result ≡ cell_count_of b.now) × (result < 65536) }
{
    usize::from(little::word16(b, 9))
}

pub fn steps(b: &[u8]) -> usize
    requires { header_size ≤ length b.now }
    ensures { (result ≡ steps_of b.now) × (result < 65536) }
{
    usize::from(little::word16(b, 11))
}

// Floats of all points.
pub fn point_count(b: &[u8]) -> usize
    requires { header_size ≤ length b.now }
    ensures { (result ≡ point_count b.now) × (result < 16777216) }
{
    vertex_count(b) * axes(b)
}

// Where the cells begin: behind the header and the points.
pub fn cells_start(b: &[u8]) -> usize
    requires { header_size ≤ length b.now }
    ensures { (result ≡ cells_start b.now) × (result < 268435456) }
{
    40 + point_count(b) * 8
}

// Bytes of a cell before its vertices: the sign, and in version 2 the material.
pub(crate) fn head(version: usize) -> usize
    ensures { (result ≡ cell_head version) × (result ≤ 3) }
{
    if with_materials(version) {
        return 3;
    }
    1
}

// Bytes of a cell of dimension d.
pub(crate) fn cell_size(version: usize, d: usize) -> usize
    requires { d < 256 }
    ensures { (result ≡ cell_bytes version d) × (result < 1024) }
{
    head(version) + (d + 1) * 2
}

// Row 1: under 40 bytes, or mark or version wrong.
pub fn not_ours(b: &[u8]) -> bool
    ensures { result ≡ not_ours b.now }
{
    if b.len() < 40 {
        return true;
    }
    if b.starts_with(b"WNG") {
        return !version_ok(version(b));
    }
    true
}

fn numbers_outside(d: usize, n: usize, v: usize, s: usize, h: usize, kind: usize) -> bool
    ensures { result ≡ not (numbers_fit d n v s h kind) }
{
    let shape = Shape::within(Shape::MAX_SOURCE, d, v, s);
    let axes = axes_ok(n) && d < n;
    let rest = steps_ok(h) && (1..=3).contains(&kind);
    !(shape && axes && rest)
}

// Row 2: a number outside its limits, or the kind not 1 to 3.
pub fn outside_limits(b: &[u8]) -> bool
    requires { header_size ≤ length b.now }
    ensures { result ≡ not (numbers_ok b.now) }
{
    let d = dimension(b);
    let n = axes(b);
    let v = vertex_count(b);
    let s = cell_count(b);
    let h = steps(b);
    let kind = byte_at(b, 13);
    numbers_outside(d, n, v, s, h, kind)
}

// Row 3: a length that is not what the numbers say.
pub fn wrong_length(b: &[u8]) -> bool
    requires { header_size ≤ length b.now }
    ensures { result ≡ not (eqb (length b.now) (file_length b.now)) }
{
    let start = cells_start(b);
    let count = cell_count(b);
    let size = cell_size(version(b), dimension(b));
    b.len() != start + count * size
}
