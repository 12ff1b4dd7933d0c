// Whether a table is sound. Its faces are gone through once, and its wings must be what they say; where that is given up, all faces are matched.
#![tactic(auto)]

pub mod buckets;
mod coded;
pub mod codes;
pub mod faces;
pub mod hashing;
pub mod keys;
mod rooms;
pub mod rows;
mod wings;

ghost use Rattle.std.specs.Prelude.{◌≡◌};
ghost use Rattle.solids.specs.Table.{sound};

use crate::rooms::is_certified;

// Whether the words are a sound table of s cells of dimension d on v vertices.
pub fn is_sound(d: usize, v: usize, s: usize, table: &[u16]) -> bool
    ensures { result ≡ sound d v s table.now }
{
    if d == 0 {
        return tables::sound::is_sound(0, v, s, table);
    }
    if is_certified(d, v, s, table) {
        return true;
    }
    tables::sound::is_sound(d, v, s, table)
}
