// The record of a cell with empty wings, written in its parts.
ghost use Rattle.std.specs.Prelude.{[], ◌∷◌, ◌≡◌, suc, ◌+◌, ◌≤◌, length, replicate, take};
ghost use Rattle.words.specs.Inner.Placed.{placed};
ghost use Rattle.simplex.specs.Cell.{cell};
ghost use Rattle.simplex.specs.SignWords.{sign_word};
ghost use Rattle.records.specs.Layout.{empty, record_size, wing_place};
ghost use Rattle.gathering.specs.Inner.Gathering.{blank_words};

use records::sizes::{EMPTY, MATERIAL, VERTICES, first_wing};
use simplex::sign_words::sign_word;

// Writes the first n words of a row to place `to` of the table and on. There are always eight turns, which the compiler writes out.
fn store(n: usize, row: [u16; 8], to: usize, table: &mut [u16])
    requires { (n ≤ 8) × (length row ≡ 8) × (to + n ≤ length table.old) }
    ensures { table.new ≡ placed to (take n row) table.old }
{
    for j in 0..8 {
        if j < n {
            table[to + j] = row[j];
        }
    }
}

// Writes n empty wings there. The compiler makes one store of it where it knows n.
fn clear(n: usize, to: usize, table: &mut [u16])
    requires { (n ≤ 8) × (to + n ≤ length table.old) }
    ensures { table.new ≡ placed to (replicate n empty) table.old }
{
    table[to..to + n].fill(EMPTY);
}

// Writes the sign and the material of the record at place `at`, and its d + 1 empty wings: all but its vertices.
pub fn surround(d: usize, sign: bool, material: u16, at: usize, table: &mut [u16])
    requires { (d ≤ 7) × (at + record_size d ≤ length table.old) }
    ensures { table.new
        ≡ placed (at + wing_place d 0) (replicate (suc d) empty) (placed at (sign_word sign ∷ material ∷ []) table.old) }
{
    table[at] = sign_word(sign);
    table[at + MATERIAL] = material;
    clear(d + 1, at + first_wing(d), table);
}

// Writes the record of the cell with this sign, material and row to place `at` of the table and on.
pub fn write_blank(d: usize, sign: bool, material: u16, row: [u16; 8], at: usize, table: &mut [u16])
    requires { (d ≤ 7) × (length row ≡ 8) × (at + record_size d ≤ length table.old) }
    ensures { table.new ≡ placed at (blank_words d (cell sign material (take (suc d) row))) table.old }
{
    store(d + 1, row, at + VERTICES, table);
    surround(d, sign, material, at, table);
}
