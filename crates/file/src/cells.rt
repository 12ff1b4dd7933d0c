// The cells of a file, and rows 6 to 8 and 18 of the refusal table.
ghost use Rattle.std.specs.Prelude.{◌≡◌, not, ◌||◌, suc, ◌+◌, ◌*◌, ◌<◌, ◌≤◌, eqb, leb, length};
ghost use Rattle.words.specs.Records.{any_of};
ghost use Rattle.words.specs.Bytes.{words_from};
ghost use Rattle.words.specs.Inner.Placed.{placed};
ghost use Rattle.rules.specs.Calls.{written};
ghost use Rattle.solids.specs.Accept.{vertex_beyond, vertex_twice, repeats, bad_material};
ghost use Rattle.file.specs.File.{header_size, version_of, dimension_of, vertex_count_of, cell_count_of, cells_start, cell_head, cell_bytes};
ghost use Rattle.file.specs.File.{file_length, sign_bytes, file_cells};
ghost use Rattle.file.specs.Tests.{cells_length, file_words};
ghost use Rattle.file.specs.Inner.Places.{material_from, cell_words_from};

use crate::numbers;
use records::sizes::{MATERIAL, VERTICES, list_size};
use rules::limits::{Shape, with_materials};
use simplex::sign_words::sign_word;
use words::{copy, little};

// Where cell p stands.
fn cell_at(b: &[u8], p: usize) -> usize
    requires { (length b.now ≡ file_length b.now) × (p < cell_count_of b.now) }
    ensures { (result ≡ cells_start b.now + p * cell_bytes (version_of b.now) (dimension_of b.now))
        × (result + cell_bytes (version_of b.now) (dimension_of b.now) ≤ length b.now) }
{
    let start = numbers::cells_start(b);
    let size = numbers::cell_size(numbers::version(b), numbers::dimension(b));
    start + p * size
}

// Where its vertices stand.
fn vertices_at(b: &[u8], p: usize) -> usize
    requires { (length b.now ≡ file_length b.now) × (p < cell_count_of b.now) }
    ensures { (result ≡ cells_start b.now + p * cell_bytes (version_of b.now) (dimension_of b.now)
        + cell_head (version_of b.now)) × (result + suc (dimension_of b.now) * 2 ≤ length b.now) }
{
    cell_at(b, p) + numbers::head(numbers::version(b))
}

// The material of the cell at `at`: files of version 1 have none.
fn material(b: &[u8], version: usize, at: usize) -> u16
    requires { at + cell_head version ≤ length b.now }
    ensures { result ≡ material_from version b.now at }
{
    if with_materials(version) {
        return little::word16(b, at + 1);
    }
    0
}

fn no_sign(x: u8) -> bool
    ensures { result ≡ not (eqb x 43 || eqb x 45) }
{
    !((x == 43) | (x == 45))
}

// Row 6: a sign byte that is neither plus nor minus.
pub fn bad_sign(b: &[u8]) -> bool
    requires { length b.now ≡ file_length b.now }
    ensures { result ≡ any_of (λ x. not (eqb x 43 || eqb x 45)) (sign_bytes b.now) }
{
    let count = numbers::cell_count(b);
    for p in 0..count {
        let at = cell_at(b, p);
        if no_sign(b[at]) {
            return true;
        }
    }
    false
}

// Whether one of the m vertices from `at` is v or above.
fn beyond(b: &[u8], at: usize, m: usize, v: usize) -> bool
    requires { at + m * 2 ≤ length b.now }
    ensures { result ≡ any_of (λ x. leb v x) (words_from b.now at m) }
{
    for k in 0..m {
        let x = usize::from(little::word16(b, at + k * 2));
        if v <= x {
            return true;
        }
    }
    false
}

// Row 7: a vertex that is the vertex count or above.
pub fn bad_vertex(b: &[u8]) -> bool
    requires { length b.now ≡ file_length b.now }
    ensures { result ≡ vertex_beyond (vertex_count_of b.now) (file_cells b.now) }
{
    let count = numbers::cell_count(b);
    let v = numbers::vertex_count(b);
    let m = numbers::dimension(b) + 1;
    for p in 0..count {
        let at = vertices_at(b, p);
        if beyond(b, at, m, v) {
            return true;
        }
    }
    false
}

// Whether x is one of the m vertices from `at`.
fn holds(b: &[u8], at: usize, m: usize, x: u16) -> bool
    requires { at + m * 2 ≤ length b.now }
    ensures { result ≡ any_of (eqb x) (words_from b.now at m) }
{
    for k in 0..m {
        let y = little::word16(b, at + k * 2);
        if x == y {
            return true;
        }
    }
    false
}

// Whether one of the m vertices from `at` comes again after itself.
fn repeated(b: &[u8], at: usize, m: usize) -> bool
    requires { at + m * 2 ≤ length b.now }
    ensures { result ≡ repeats (words_from b.now at m) }
{
    for k in 0..m {
        let from = at + k * 2;
        let x = little::word16(b, from);
        if holds(b, from + 2, m - k - 1, x) {
            return true;
        }
    }
    false
}

// Row 8: a vertex twice in a cell.
pub fn vertex_twice(b: &[u8]) -> bool
    requires { length b.now ≡ file_length b.now }
    ensures { result ≡ vertex_twice (file_cells b.now) }
{
    let count = numbers::cell_count(b);
    let m = numbers::dimension(b) + 1;
    for p in 0..count {
        let at = vertices_at(b, p);
        if repeated(b, at, m) {
            return true;
        }
    }
    false
}

// Row 18: a material above the largest.
pub fn bad_material(b: &[u8]) -> bool
    requires { length b.now ≡ file_length b.now }
    ensures { result ≡ bad_material (file_cells b.now) }
{
    let count = numbers::cell_count(b);
    let version = numbers::version(b);
    for p in 0..count {
        let at = cell_at(b, p);
        if Shape::MAX_MATERIAL < material(b, version, at) {
            return true;
        }
    }
    false
}

// Words of all cells, each a list cell.
pub fn words(b: &[u8]) -> usize
    requires { header_size ≤ length b.now }
    ensures { result ≡ cells_length b.now }
{
    numbers::cell_count(b) * list_size(numbers::dimension(b))
}

// Writes the words of the cell of m vertices at `at` to the places from `to`.
fn write_cell(b: &[u8], version: usize, m: usize, at: usize, out: &mut [u16], to: usize)
    requires { (at + cell_head version + m * 2 ≤ length b.now) × (to + 2 + m ≤ length out.old) }
    ensures { out.new ≡ placed to (cell_words_from version b.now at m) out.old }
{
    out[to] = sign_word(b[at] == 43);
    out[to + MATERIAL] = material(b, version, at);
    copy::copy16(b, at + numbers::head(version), m, out, to + VERTICES);
}

// Writes the cells from the start of `out`. What the header says is looked up once.
pub fn write_cells(b: &[u8], out: &mut [u16])
    requires { (length b.now ≡ file_length b.now) × (cells_length b.now ≤ length out.old) }
    ensures { out.new ≡ written (file_words b.now) out.old }
{
    let count = numbers::cell_count(b);
    let version = numbers::version(b);
    let d = numbers::dimension(b);
    let bytes = numbers::cell_size(version, d);
    let size = list_size(d);
    let start = numbers::cells_start(b);
    for p in 0..count {
        write_cell(b, version, d + 1, start + p * bytes, out, p * size);
    }
}
