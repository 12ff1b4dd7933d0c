// The wings of the cells over one cell that are over its faces.
ghost use Rattle.std.specs.Prelude.{◌≡◌, ℕ, ◌+◌, ◌<◌, ◌≤◌, length};
ghost use Rattle.rules.specs.Limits.{max_source};
ghost use Rattle.sweeping.specs.Inner.Across.{side_word};
ghost use Rattle.sweeping.specs.Inner.Filling.{Right, Kept};
ghost use Rattle.sweeping.specs.Inner.PrismPlaces.{side_at};
ghost use Rattle.sweeping.specs.Inner.SweptWords.{prism_words, Ready};

use crate::places::record_place;
use crate::sides::pair_at;
use crate::wings::across_face;
use records::sizes::{EMPTY, first_wing};

// The place of the side at place l over face a.
fn side_place(d: usize, a: usize, l: usize) -> usize
    requires { (d ≤ max_source) × (a ≤ d) × (l < d) }
    ensures place { result ≡ side_at d a l }
{
    let x = pair_at(d, a, l);
    record_place(d, x.cell) + (first_wing(d + 1) + x.position)
}

// The side at place l over a face, from the first cell across and its position there; none where nothing is across.
fn side_word(d: usize, first: u16, back: usize, l: usize) -> u16
    requires { (d ≤ max_source) × (back ≤ d) × (l < d) × (side_word first back l ≤ 65535) }
    ensures { result ≡ side_word first back l }
{
    if first == EMPTY {
        return EMPTY;
    }
    (usize::from(first) + pair_at(d, back, l).cell) as u16
}

// The sides over face a.
fn put_face<const D: usize>(
    v: usize,
    s: usize,
    h: usize,
    table: &[u16],
    i: usize,
    p: usize,
    a: usize,
    at: usize,
    out: &mut [u16],
)
    requires ready { Ready D v s h table.now }
    requires at { (i < h) × (p < s) × (a ≤ D) }
    requires room { at + length (prism_words D v s h table.now i p) ≤ length out.old }
    ensures kept { Kept at (prism_words D v s h table.now i p) out.old out.new }
    ensures right { (l : ℕ) → l < D → Right at (prism_words D v s h table.now i p) out.new (side_at D a l) }
{
    let x = across_face(D, v, s, h, table, i, p, a);
    let first = x.first;
    let back = x.back;
    for l in 0..D {
        out[at + side_place(D, a, l)] = side_word(D, first, back, l);
    }
}

// The sides over all faces.
pub fn put_faces<const D: usize>(
    v: usize,
    s: usize,
    h: usize,
    table: &[u16],
    i: usize,
    p: usize,
    at: usize,
    out: &mut [u16],
)
    requires ready { Ready D v s h table.now }
    requires at { (i < h) × (p < s) }
    requires room { at + length (prism_words D v s h table.now i p) ≤ length out.old }
    ensures kept { Kept at (prism_words D v s h table.now i p) out.old out.new }
    ensures right { (a l : ℕ) → a ≤ D → l < D →
        Right at (prism_words D v s h table.now i p) out.new (side_at D a l) }
{
    for a in 0..D + 1 {
        put_face::<D>(v, s, h, table, i, p, a, at, out);
    }
}
