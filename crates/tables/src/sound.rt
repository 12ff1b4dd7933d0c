// Whether a table is sound: it is the table of its own cells, and those are acceptable.
ghost use Rattle.std.specs.Prelude.{◌≡◌};
ghost use Rattle.solids.specs.Table.{sound};

use crate::table::same;
use crate::take::take;
use records::sizes::{EMPTY, record_size, table_words};
use rules::limits::Shape;

// Whether the words are a sound table of s cells of dimension d on v vertices.
pub fn is_sound(d: usize, v: usize, s: usize, table: &[u16]) -> bool
    ensures { result ≡ sound d v s table.now }
{
    if !Shape::within(Shape::MAX_DIMENSION, d, v, s) {
        return false;
    }
    if table.len() != table_words(d, s) {
        return false;
    }
    let mut rows = [0u16; 32768];
    let mut signs = [false; 4096];
    let mut wings = [EMPTY; 32768];
    let size = record_size(d);
    if take(size, d, v, s, table, &mut rows, &mut signs, &mut wings).is_err() {
        return false;
    }
    same(d, s, &rows, &signs, &wings, table)
}
