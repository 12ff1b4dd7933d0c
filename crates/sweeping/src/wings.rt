// The wings of swept cells: cell k over cell p at level i, in a sweep of h steps of s cells; and what is across the faces of p.
ghost use Rattle.std.specs.Prelude.{◌≡◌, ◌<◌, ◌≤◌};
ghost use Rattle.records.specs.Inner.Inside.{Inside};
ghost use Rattle.rules.specs.Limits.{max_cells};
ghost use Rattle.prism.specs.Swept.{swept_cells};
ghost use Rattle.sweeping.specs.Inner.Across.{face_first, face_back};
ghost use Rattle.prism.specs.Wings.{cell_number, back_to, wing_above, wing_below};
ghost use Rattle.sweeping.specs.Inner.SweptWords.{solid_wing, Ready};

use crate::reading::wing;
use records::sizes::EMPTY;

pub fn cell_number(d: usize, s: usize, h: usize, i: usize, p: usize, k: usize) -> u16
    requires { (swept_cells d s h ≤ max_cells) × (i < h) × (p < s) × (k ≤ d) }
    ensures { result ≡ cell_number d s i p k }
{
    (k + p * (d + 1) + i * (s * (d + 1))) as u16
}

// Position 0: the next cell over p, or the first of the next level.
pub fn wing_above(d: usize, s: usize, h: usize, i: usize, p: usize, k: usize) -> u16
    requires { (swept_cells d s h ≤ max_cells) × (i < h) × (p < s) × (k ≤ d) }
    ensures { result ≡ wing_above d s h (λ q a. 0) i p k }
{
    if k < d {
        return cell_number(d, s, h, i, p, k + 1);
    }
    if i + 1 == h {
        return EMPTY;
    }
    cell_number(d, s, h, i + 1, p, 0)
}

// Position d + 1: the cell before, or the last of the level below.
pub fn wing_below(d: usize, s: usize, h: usize, i: usize, p: usize, k: usize) -> u16
    requires { (swept_cells d s h ≤ max_cells) × (i < h) × (p < s) × (k ≤ d) }
    ensures { result ≡ wing_below d s h (λ q a. 0) i p k }
{
    if k != 0 {
        return cell_number(d, s, h, i, p, k - 1);
    }
    if i == 0 {
        return EMPTY;
    }
    cell_number(d, s, h, i - 1, p, d)
}

// The first position at which the wing of q is p; d + 1 if there is none. All are looked at, from the last on, so that the
// test becomes no branch: in a shuffled solid none could be foretold.
fn back(d: usize, s: usize, table: &[u16], p: usize, q: usize) -> usize
    requires { Inside d s q table.now }
    ensures { result ≡ back_to (solid_wing d s table.now) p q d }
{
    let mut found = d + 1;
    for b in (0..d + 1).rev() {
        if usize::from(wing(d, s, table, q, b)) == p {
            found = b;
        }
    }
    found
}

// The cell across a face: its first swept cell at some level, and its own position at the face. EMPTY and 0 where none is across:
// no Option, since the mark itself is what is written to the table.
#[derive(Drop)]
pub struct Beyond {
    pub first: u16,
    pub back: usize,
}

// The cell across face a of p, at level i.
pub fn across_face(
    d: usize,
    v: usize,
    s: usize,
    h: usize,
    table: &[u16],
    i: usize,
    p: usize,
    a: usize,
) -> Beyond
    requires ready { Ready d v s h table.now }
    requires at { (i < h) × (p < s) × (a ≤ d) }
    ensures first { result.first ≡ face_first d s (solid_wing d s table.now) i p a }
    ensures back { result.back ≡ face_back d (solid_wing d s table.now) p a }
{
    let w = wing(d, s, table, p, a);
    if w == EMPTY {
        return Beyond {
            first: EMPTY,
            back: 0,
        };
    }
    let q = usize::from(w);
    let first = cell_number(d, s, h, i, q, 0);
    let back = back(d, s, table, p, q);
    Beyond { first, back }
}
