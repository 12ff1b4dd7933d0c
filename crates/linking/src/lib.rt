// The table of a list of cells, with wings made by pairing faces in one pass.
#![tactic(auto)]

mod pairing;
mod setting;

ghost use Rattle.std.specs.Prelude.{◌≡◌, true, ℕ, suc, ◌*◌, ◌≤◌, ◌<◌, length, get_or};
ghost use Rattle.rules.specs.Calls.{first_refusal};
ghost use Rattle.records.specs.Layout.{list_length, table_length};
ghost use Rattle.solids.specs.Accept.{solid_rules};
ghost use Rattle.solids.specs.Table.{table_of_list};
ghost use Rattle.tables.specs.Inner.Tabled.{list_with};

use crate::pairing::link_all;
use gathering::gather;
use records::sizes::wings_words;
use soundness::hashing::hashes;

// Writes the table of the s cells of a list, in lent arrays of which `head` is empty. True says that none of rows 6 to 11 and 18 refuses it;
// false says nothing of the list.
pub fn try_table(
    d: usize,
    v: usize,
    s: usize,
    cells: &[u16],
    table: &mut [u16],
    hash: &mut [u32],
    head: &mut [u16],
    next: &mut [u16],
) -> bool
    requires le_d { (1 ≤ d) × (d ≤ 7) × (s ≤ 4096) × (length cells.now ≡ list_length d s) × (length table.old ≡ table_length d s) }
    requires d_in_bounds { (s * suc d ≤ length hash.old) × (s * suc d ≤ length next.old) × (0 < length head.old) × (length head.old ≤ 65536) }
    requires by_index { (b : ℕ) → b < length head.old → get_or head.old b 0 ≡ 65535 }
    ensures made { result ≡ true → (0 ≡ first_refusal solid_rules (list_with d v s cells.now))
        × (table_of_list (list_with d v s cells.now) ≡ table.new) }
    ensures long { (length hash.new ≡ length hash.old)
        × (length head.new ≡ length head.old) × (length next.new ≡ length next.old) }
{
    if !gather(d, v, s, cells, table) {
        return false;
    }
    hashes(d, s, table, hash);
    link_all(d, s, wings_words(d, s), table, hash, head, next)
}
