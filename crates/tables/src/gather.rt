// Cells from words: each row in ascending order, eight words a cell, and its sign; and the tests of rows 6, 7, 8 and 18.
// A record has size words: a sign word, a material, d + 1 vertices, and perhaps more.
ghost use Rattle.std.specs.Prelude.{◌≡◌, ℕ, ◌+◌, ◌*◌, ◌<◌, ◌≤◌, length, take, drop};
ghost use Rattle.std.proofs.Math.Seq.{paste};
ghost use Rattle.words.specs.Records.{any_below};
ghost use Rattle.rules.specs.Limits.{max_dimension, max_material};
ghost use Rattle.simplex.specs.Order.{ascending};
ghost use Rattle.records.specs.Layout.{list_size, record_size, material_place};
ghost use Rattle.tables.specs.Inner.Held.{row_of_eight, Gathered, cell_held, cell_read, material_at, above_at, beyond_at, falls_at, falls};

use records::sizes::{MATERIAL, VERTICES};
use rules::limits::Shape;
use simplex::sign_words::product;
use simplex::sort::sort_row;

// The first n words from at, as a row of eight: the places behind them are 0. There are always eight turns, which
// the compiler writes out.
pub fn read_row(n: usize, at: usize, words: &[u16]) -> [u16; 8]
    requires { (n ≤ 8) × (at + n ≤ length words.now) }
    ensures { (length result ≡ 8) × (result ≡ row_of_eight (take n (drop at words.now))) }
{
    let mut row = [0u16; 8];
    for j in 0..8 {
        if j < n {
            row[j] = words[at + j];
        }
    }
    row
}

// A row put at its place.
fn store_row(row: [u16; 8], p: usize, rows: &mut [u16; 32768])
    requires { (p < 4096) × (length row ≡ 8) × (length rows.old ≡ 32768) }
    ensures { rows.new ≡ paste rows.old (p * 8) row 8 }
{
    rows[p * 8..p * 8 + 8].copy_from_slice(&row);
}

// Cell p read, put in ascending order, and stored.
fn gather_cell(
    size: usize,
    d: usize,
    p: usize,
    words: &[u16],
    rows: &mut [u16; 32768],
    signs: &mut [bool; 4096],
)
    requires d_bound { (d ≤ 7) × (list_size d ≤ size) × (size ≤ record_size max_dimension) × (p < 4096) × (p * size + size ≤ length words.now) }
    requires rows_len { (length rows.old ≡ 32768) × (length signs.old ≡ 4096) }
    ensures { Gathered size d p words.now rows.old signs.old rows.new signs.new }
{
    let at = p * size;
    let sorted = sort_row(read_row(d + 1, at + VERTICES, words), d + 1);
    let row = sorted.row;
    signs[p] = product(!sorted.odd, words[at] == 0);
    store_row(row, p, rows);
}

// The s cells of the words, in ascending order.
pub fn gather(
    size: usize,
    d: usize,
    s: usize,
    words: &[u16],
    rows: &mut [u16; 32768],
    signs: &mut [bool; 4096],
)
    requires d_bound { (d ≤ 7) × (list_size d ≤ size) × (size ≤ record_size max_dimension) × (s ≤ 4096) × (s * size ≤ length words.now) }
    requires rows_len { (length rows.old ≡ 32768) × (length signs.old ≡ 4096) }
    ensures rows_len_2 { (length rows.new ≡ 32768) × (length signs.new ≡ 4096) }
    ensures by_index { (p : ℕ) → p < s → cell_held d rows.new signs.new (material_at size words.now) p
        ≡ ascending (cell_read size d words.now p) }
{
    for p in 0..s {
        gather_cell(size, d, p, words, rows, signs);
    }
}

// Whether the word at place k of a record is above the most that it may be.
fn any_above(size: usize, k: usize, most: u16, s: usize, words: &[u16]) -> bool
    requires { (s ≤ 4096) × (k < size) × (size ≤ record_size max_dimension) × (s * size ≤ length words.now) }
    ensures { result ≡ any_below s (above_at size k most words.now) }
{
    for p in 0..s {
        if most < words[p * size + k] {
            return true;
        }
    }
    false
}

// 6: whether a sign word is neither 0 nor 1.
pub fn bad_sign(size: usize, s: usize, words: &[u16]) -> bool
    requires { (s ≤ 4096) × (1 ≤ size) × (size ≤ record_size max_dimension) × (s * size ≤ length words.now) }
    ensures { result ≡ any_below s (above_at size 0 1 words.now) }
{
    any_above(size, 0, 1, s, words)
}

// 18: whether a material is above the largest.
pub fn bad_material(size: usize, s: usize, words: &[u16]) -> bool
    requires { (s ≤ 4096) × (2 ≤ size) × (size ≤ record_size max_dimension) × (s * size ≤ length words.now) }
    ensures { result ≡ any_below s (above_at size material_place max_material words.now) }
{
    any_above(size, MATERIAL, Shape::MAX_MATERIAL, s, words)
}

// 7: whether the last vertex of a row, its largest, is v or above.
pub fn beyond(d: usize, v: usize, s: usize, rows: &[u16; 32768]) -> bool
    requires { (d ≤ 7) × (s ≤ 4096) }
    ensures { result ≡ any_below s (beyond_at d v rows.now) }
{
    for p in 0..s {
        if v <= usize::from(rows[p * 8 + d]) {
            return true;
        }
    }
    false
}

// Whether vertex j + 1 of a row is not above vertex j.
fn column_falls(j: usize, s: usize, rows: &[u16; 32768]) -> bool
    requires { (j < 7) × (s ≤ 4096) }
    ensures { result ≡ any_below s (λ p. falls_at rows.now p j) }
{
    for p in 0..s {
        if rows[p * 8 + j + 1] <= rows[p * 8 + j] {
            return true;
        }
    }
    false
}

// 8: whether a row does not ascend.
pub fn any_falls(d: usize, s: usize, rows: &[u16; 32768]) -> bool
    requires { (d ≤ 7) × (s ≤ 4096) }
    ensures { result ≡ any_below s (falls d rows.now) }
{
    for j in 0..d {
        if column_falls(j, s, rows) {
            return true;
        }
    }
    false
}
