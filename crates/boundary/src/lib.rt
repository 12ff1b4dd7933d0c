// Boundary faces: from a solid's table to the faces at its empty wings.
#![tactic(auto)]

ghost use Rattle.std.specs.Prelude.{◌≡◌, length};
ghost use Rattle.rules.specs.Numbers.{outcome_of};
ghost use Rattle.boundary.specs.Faces.{faces_input, faces_outcome, faces_buffer};

use crate::counting::count_faces;
use crate::writing::write_faces;
use records::sizes::{face_size, table_words};
use rules::limits::Shape;
use rules::refusal::Refusal;
use soundness::is_sound;

pub mod counting;
pub mod face;
pub mod walk;
pub mod writing;

// Writes the faces from the start of out, a sign word, d vertices and the material each, and answers their count, or says why not.
pub fn faces(d: usize, v: usize, s: usize, table: &[u16], out: &mut [u16]) -> Result<usize, Refusal>
    ensures answer { outcome_of result ≡ faces_outcome (faces_input d v s table.now (length out.old)) }
    ensures buffer { out.new ≡ faces_buffer (faces_input d v s table.now (length out.old)) out.old }
{
    if !Shape::within(Shape::MAX_DIMENSION, d, v, s) {
        return Err(Refusal::OutsideLimits);
    }
    if table.len() != table_words(d, s) {
        return Err(Refusal::WrongLength);
    }
    if !is_sound(d, v, s, table) {
        return Err(Refusal::Unsound);
    }
    let n = count_faces(d, s, table);
    if out.len() < n * face_size(d) {
        return Err(Refusal::NoRoom);
    }
    write_faces(d, s, table, out);
    Ok(n)
}
