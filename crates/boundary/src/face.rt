// One face of a cell of a table: its sign word, its vertices, its material, and the words of its record.
ghost use Rattle.std.specs.Prelude.{◌≡◌, ◌<◌, ◌≤◌, get_or};
ghost use Rattle.simplex.specs.SignWords.{sign_word};
ghost use Rattle.records.specs.Layout.{face_size, face_words};
ghost use Rattle.records.specs.Inner.Inside.{Inside};
ghost use Rattle.boundary.specs.Inner.Walk.{face_at};

use records::reading::{material, sign, vertex};
use simplex::sign_words::turned;

// The sign word of face a of cell p.
pub fn face_sign(d: usize, s: usize, table: &[u16], p: usize, a: usize) -> u16
    requires { Inside d s p table.now × (a ≤ d) }
    ensures { result ≡ sign_word (face_at d table.now p a).sign }
{
    turned(sign(d, s, table, p), a)
}

// Its vertex k.
pub fn face_vertex(d: usize, s: usize, table: &[u16], p: usize, a: usize, k: usize) -> u16
    requires { Inside d s p table.now × (a ≤ d) × (k < d) }
    ensures { result ≡ get_or (face_at d table.now p a).row k 0 }
{
    if k < a {
        return vertex(d, s, table, p, k);
    }
    vertex(d, s, table, p, k + 1)
}

// Word j of its record.
pub fn face_word(d: usize, s: usize, table: &[u16], p: usize, a: usize, j: usize) -> u16
    requires { Inside d s p table.now × (a ≤ d) × (j < face_size d) }
    ensures { result ≡ get_or (face_words (face_at d table.now p a)) j 0 }
{
    if j == 0 {
        return face_sign(d, s, table, p, a);
    }
    if d < j {
        return material(d, s, table, p);
    }
    face_vertex(d, s, table, p, a, j - 1)
}
