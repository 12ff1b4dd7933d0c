// The table of a list of cells, written into lent words.
ghost use Rattle.std.specs.Prelude.{◌≡◌, ◌||◌, ◌*◌, ◌≤◌, ltb, length};
ghost use Rattle.rules.specs.Numbers.{outcome_of};
ghost use Rattle.records.specs.Layout.{list_size, table_length, wings_length};
ghost use Rattle.tables.specs.Inner.Tabled.{table_outcome, table_after};

use crate::table::fill;
use crate::take::take;
use records::sizes::{EMPTY, list_size, table_words, wings_words};
use rules::refusal::Refusal;

// 15: whether the table, or its wings alone, have more words than their room.
fn too_short(d: usize, s: usize, room: usize, further: usize) -> bool
    requires { (d ≤ 7) × (s ≤ 4096) }
    ensures { result ≡ (ltb room (table_length d s) || ltb further (wings_length d s)) }
{
    room < table_words(d, s) || further < wings_words(d, s)
}

// Writes the table of the s cells of a list from the start of the lent words and answers the count of its words; or
// says which of rows 6 to 8, 18, 9 to 11 and 15 is the first that refuses it, and writes nothing. Row 15 looks at the room of the
// further buffer too.
pub fn write_table(
    d: usize,
    v: usize,
    s: usize,
    cells: &[u16],
    further: usize,
    table: &mut [u16],
) -> Result<usize, Refusal>
    requires { (d ≤ 7) × (s ≤ 4096) × (length cells.now ≡ s * list_size d) }
    ensures answer { outcome_of result ≡ table_outcome d v s cells.now (length table.old) further }
    ensures table { table.new ≡ table_after d v s cells.now further table.old }
{
    let mut rows = [0u16; 32768];
    let mut signs = [false; 4096];
    let mut wings = [EMPTY; 32768];
    let size = list_size(d);
    take(size, d, v, s, cells, &mut rows, &mut signs, &mut wings)?;
    if too_short(d, s, table.len(), further) {
        return Err(Refusal::NoRoom);
    }
    fill(d, s, cells, &rows, &signs, &wings, table);
    Ok(table_words(d, s))
}
