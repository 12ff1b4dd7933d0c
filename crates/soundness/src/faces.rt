// Two faces of a table compared: their vertices, and their signs.
ghost use Rattle.std.specs.Prelude.{◌≡◌, cond, not, ◌+◌, ◌≤◌, ◌<◌, eqb, ltb};
ghost use Rattle.simplex.specs.Cell.{same_row};
ghost use Rattle.simplex.specs.SignWords.{turned_sign};
ghost use Rattle.records.specs.Inner.Inside.{Inside};
ghost use Rattle.soundness.specs.Inner.Certified.{face_in};

use records::reading::vertex;

// Where vertex j stands, of those left without position a.
fn stands(a: usize, j: usize) -> usize
    requires { j < 8 }
    ensures { (result ≡ cond (ltb j a) j (j + 1)) × (result ≤ j + 1) }
{
    if j < a { j } else { j + 1 }
}

// Whether face a of cell p and face b of cell q have the same vertices. The loop's bound is a number, so that the compiler writes it out.
pub fn same_face(d: usize, s: usize, table: &[u16], p: usize, a: usize, q: usize, b: usize) -> bool
    requires { Inside d s p table.now × Inside d s q table.now × (a ≤ d) × (b ≤ d) }
    ensures { result ≡ same_row (face_in d table.now p a) (face_in d table.now q b) }
{
    for j in 0..7 {
        if d <= j {
            return true;
        }
        let x = vertex(d, s, table, p, stands(a, j));
        let y = vertex(d, s, table, q, stands(b, j));
        if x != y {
            return false;
        }
    }
    true
}

// Whether two sign words differ, turned over b and a times. No branch depends on the table.
pub fn opposite(x: u16, b: usize, y: u16, a: usize) -> bool
    ensures { result ≡ not (eqb (turned_sign x b) (turned_sign y a)) }
{
    let same = (x == 0) == (y == 0);
    same != ((b % 2 == 0) == (a % 2 == 0))
}
