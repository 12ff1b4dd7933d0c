// The call wing: it takes a list of cells and writes its table, and the wings in uploaded order.
#![tactic(auto)]

ghost use Rattle.std.specs.Prelude.{◌≡◌, length};
ghost use Rattle.rules.specs.Numbers.{outcome_of};
ghost use Rattle.wing.specs.Wing.{wing_input, wing_outcome, wing_buffer, uploaded_buffer};

use crate::uploaded::write_uploaded;
use records::sizes::list_words;
use rules::limits::Shape;
use rules::refusal::Refusal;
use tables::tabled::write_table;

pub mod uploaded;

// wing but for the further buffer, of which it is told the room: the answer, and the table.
pub fn wing_table(
    d: usize,
    v: usize,
    s: usize,
    cells: &[u16],
    further: usize,
    table: &mut [u16],
) -> Result<usize, Refusal>
    ensures answer { outcome_of result ≡ wing_outcome (wing_input d v s cells.now (length table.old) further) }
    ensures table { table.new
        ≡ wing_buffer (wing_input d v s cells.now (length table.old) further) table.old }
{
    if !Shape::within(Shape::MAX_DIMENSION, d, v, s) {
        return Err(Refusal::OutsideLimits);
    }
    if cells.len() != list_words(d, s) {
        return Err(Refusal::WrongLength);
    }
    write_table(d, v, s, cells, further, table)
}

// Writes the table of s cells of dimension d on v vertices from the start of its lent words, and the wings in uploaded
// order from the start of the further ones; answers how many words the table has. Or says why not, and writes nothing.
pub fn wing(
    d: usize,
    v: usize,
    s: usize,
    cells: &[u16],
    table: &mut [u16],
    uploaded: &mut [u16],
) -> Result<usize, Refusal>
    ensures answer { outcome_of result
        ≡ wing_outcome (wing_input d v s cells.now (length table.old) (length uploaded.old)) }
    ensures table { table.new
        ≡ wing_buffer (wing_input d v s cells.now (length table.old) (length uploaded.old))
        table.old }
    ensures uploaded { uploaded.new
        ≡ uploaded_buffer (wing_input d v s cells.now (length table.old) (length uploaded.old))
        uploaded.old }
{
    let n = wing_table(d, v, s, cells, uploaded.len(), table)?;
    write_uploaded(d, s, cells, &table[..n], uploaded);
    Ok(n)
}
