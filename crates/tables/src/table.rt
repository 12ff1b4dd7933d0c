// The table of what is held: its records, written or compared. A record is a sign word, a material, d + 1 vertices and d + 1 wings.
ghost use Rattle.std.specs.Prelude.{◌≡◌, ◌+◌, ◌*◌, ◌<◌, ◌≤◌, length, get_or};
ghost use Rattle.words.specs.Inner.Placed.{placed};
ghost use Rattle.simplex.specs.Cell.{same_row};
ghost use Rattle.records.specs.Layout.{list_size, record_size, material_place, table_length};
ghost use Rattle.tables.specs.Inner.Held.{run, material_at, record_held, held_words};

use records::sizes::{MATERIAL, VERTICES, first_wing, list_size, record_size};
use simplex::sign_words::sign_word;

// Writes n of the words, from place `from` on, to place `to` of the table and on. There are always eight turns, which
// the compiler writes out.
fn copy_run(n: usize, from: usize, words: &[u16; 32768], to: usize, table: &mut [u16])
    requires { (n ≤ 8) × (from + n ≤ 32768) × (to + n ≤ length table.old) }
    ensures { table.new ≡ placed to (run n from words.now) table.old }
{
    for j in 0..8 {
        if j < n {
            table[to + j] = words[from + j];
        }
    }
}

// Writes record p, with a material, to place `at` of the table and on.
fn write_record(
    d: usize,
    p: usize,
    material: u16,
    at: usize,
    rows: &[u16; 32768],
    signs: &[bool; 4096],
    wings: &[u16; 32768],
    table: &mut [u16],
)
    requires { (d ≤ 7) × (p < 4096) × (at + record_size d ≤ length table.old) }
    ensures { table.new
        ≡ placed at (record_held d rows.now signs.now wings.now material p) table.old }
{
    let k = d + 1;
    table[at] = sign_word(signs[p]);
    table[at + MATERIAL] = material;
    copy_run(k, p * 8, rows, at + VERTICES, table);
    copy_run(k, p * k, wings, at + first_wing(d), table);
}

// Writes the table of s cells from the start, and no further; their materials stand in the list of them.
pub fn fill(
    d: usize,
    s: usize,
    cells: &[u16],
    rows: &[u16; 32768],
    signs: &[bool; 4096],
    wings: &[u16; 32768],
    table: &mut [u16],
)
    requires { (d ≤ 7) × (s ≤ 4096) × (length cells.now ≡ s * list_size d) × (table_length d s ≤ length table.old) }
    ensures { table.new
        ≡ placed 0 (held_words d s rows.now signs.now (material_at (list_size d) cells.now) wings.now)
        table.old }
{
    let part = list_size(d);
    let size = record_size(d);
    for p in 0..s {
        let material = cells[p * part + MATERIAL];
        write_record(d, p, material, p * size, rows, signs, wings, table);
    }
}

// Whether n of the words, from place `from` on, are those of the table from place `to` on.
fn same_run(n: usize, from: usize, words: &[u16; 32768], to: usize, table: &[u16]) -> bool
    requires { (from + n ≤ 32768) × (to + n ≤ length table.now) }
    ensures { result ≡ same_row (run n to table.now) (run n from words.now) }
{
    for j in 0..n {
        if table[to + j] != words[from + j] {
            return false;
        }
    }
    true
}

// Whether record p, with the material that stands there, is that of the table at place `at`.
fn same_record(
    d: usize,
    p: usize,
    at: usize,
    rows: &[u16; 32768],
    signs: &[bool; 4096],
    wings: &[u16; 32768],
    table: &[u16],
) -> bool
    requires { (d ≤ 7) × (p < 4096) × (at + record_size d ≤ length table.now) }
    ensures { result
        ≡ same_row (run (record_size d) at table.now)
        (record_held d rows.now signs.now wings.now (get_or table.now (at + material_place) 0) p) }
{
    let k = d + 1;
    if table[at] != sign_word(signs[p]) {
        return false;
    }
    if same_run(k, p * 8, rows, at + VERTICES, table) {
        return same_run(k, p * k, wings, at + first_wing(d), table);
    }
    false
}

// Whether the words are that table, with the materials that they have.
pub fn same(
    d: usize,
    s: usize,
    rows: &[u16; 32768],
    signs: &[bool; 4096],
    wings: &[u16; 32768],
    table: &[u16],
) -> bool
    requires { (d ≤ 7) × (s ≤ 4096) × (length table.now ≡ table_length d s) }
    ensures { result ≡ same_row table.now
        (held_words d s rows.now signs.now (material_at (record_size d) table.now) wings.now) }
{
    let size = record_size(d);
    for p in 0..s {
        if !same_record(d, p, p * size, rows, signs, wings, table) {
            return false;
        }
    }
    true
}
