// A list of cells taken whole: rows 6 to 8, 18 and 9 to 11, its cells in ascending order, and their wings.
ghost use Rattle.std.specs.Prelude.{◌≡◌, ◌*◌, ◌≤◌, length};
ghost use Rattle.rules.specs.Calls.{first_refusal};
ghost use Rattle.rules.specs.Limits.{max_dimension};
ghost use Rattle.rules.specs.Numbers.{verdict_of};
ghost use Rattle.records.specs.Layout.{list_size, record_size};
ghost use Rattle.solids.specs.Accept.{solid_rules};
ghost use Rattle.tables.specs.Inner.Held.{record_list, material_at, Blank, Taken};

use crate::adjacency::adjacent;
use crate::gather::{any_falls, bad_material, bad_sign, beyond, gather};
use rules::refusal::Refusal;

// The first of these rows that refuses the s records, size words each.
pub fn take(
    size: usize,
    d: usize,
    v: usize,
    s: usize,
    words: &[u16],
    rows: &mut [u16; 32768],
    signs: &mut [bool; 4096],
    wings: &mut [u16; 32768],
) -> Result<(), Refusal>
    requires d_bound { (d ≤ 7) × (list_size d ≤ size) × (size ≤ record_size max_dimension) × (s ≤ 4096) × (s * size ≤ length words.now) }
    requires rows_len { (length rows.old ≡ 32768) × (length signs.old ≡ 4096) × Blank wings.old }
    ensures number { verdict_of result ≡ first_refusal solid_rules (record_list size d v s words.now) }
    ensures taken { verdict_of result ≡ 0 →
        Taken (record_list size d v s words.now) rows.new signs.new (material_at size words.now)
        wings.new }
{
    if bad_sign(size, s, words) {
        return Err(Refusal::BadSign);
    }
    gather(size, d, s, words, rows, signs);
    if beyond(d, v, s, rows) {
        return Err(Refusal::BadVertex);
    }
    if any_falls(d, s, rows) {
        return Err(Refusal::VertexTwice);
    }
    if bad_material(size, s, words) {
        return Err(Refusal::BadMaterial);
    }
    adjacent(d, s, rows, signs, wings)
}
