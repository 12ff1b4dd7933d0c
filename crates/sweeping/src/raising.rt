// Levels from those below, but for the wings that join levels: the second by what each word of a record is, the others from the two below,
// where each word goes on as it went.
ghost use Rattle.std.specs.Prelude.{◌≡◌, ℕ, suc, ◌+◌, ◌*◌, ◌<◌, ◌≤◌, length, slice_index};
ghost use Rattle.rules.specs.Limits.{max_cells, max_source, max_vertices};
ghost use Rattle.records.specs.Layout.{record_size, wing_place};
ghost use Rattle.words.specs.Inner.Placed.{placed};
ghost use Rattle.sweeping.specs.Inner.Filling.{Right, Outside, Kept};
ghost use Rattle.sweeping.specs.Inner.Raising.{prism_size, step_of, Ahead, Raised, Stepped, SteppedLevel, SteppedTo};
ghost use Rattle.sweeping.specs.Inner.SweptWords.{level_words, Ready};

use crate::places::record_place;
use crate::wings::{wing_above, wing_below};
use records::sizes::{EMPTY, VERTICES, first_wing, record_size};

// The word behind w and x.
fn ahead(w: u16, x: u16) -> u16
    ensures { Ahead w x result }
{
    x.wrapping_add(x.wrapping_sub(w))
}

// Writes n words behind the n from place `at` on and the n behind those.
fn raise(n: usize, at: usize, out: &mut [u16])
    requires { at + n + n + n ≤ length out.old }
    ensures { Raised n at out.old out.new }
{
    for j in 0..n {
        out[at + n + n + j] = ahead(out[at + j], out[at + n + j]);
    }
}

// The wings of level i to the levels below and above, which stand from place `at` on: below the first cell over each
// cell, and above the last.
fn join(d: usize, v: usize, s: usize, h: usize, table: &[u16], i: usize, at: usize, out: &mut [u16])
    requires ready { Ready d v s h table.now }
    requires at { i < h }
    requires room { at + length (level_words d v s h table.now i) ≤ length out.old }
    ensures kept { Kept at (level_words d v s h table.now i) out.old out.new }
    ensures below { (p : ℕ) → p < s → Right at (level_words d v s h table.now i) out.new
        (p * prism_size d + wing_place (suc d) (suc d)) }
    ensures above { (p : ℕ) → p < s → Right at (level_words d v s h table.now i) out.new
        (p * prism_size d + (d * record_size (suc d) + wing_place (suc d) 0)) }
{
    let size = record_place(d, d + 1);
    let low = first_wing(d + 1) + (d + 1);
    let high = record_place(d, d) + first_wing(d + 1);
    for p in 0..s {
        let first = at + p * size;
        out[first + low] = wing_below(d, s, h, i, p, 0);
        out[first + high] = wing_above(d, s, h, i, p, d);
    }
}

// How much more word j of a record is at the next level: nothing for sign and material, v for a vertex, c for a wing.
fn step(d: usize, v: usize, c: usize, j: usize) -> u16
    requires { (d ≤ max_source) × (v ≤ max_vertices) × (c ≤ max_cells) }
    ensures { result ≡ step_of d v c j }
{
    if j < VERTICES {
        return 0;
    }
    if j < first_wing(d + 1) {
        return v as u16;
    }
    c as u16
}

// That of each word.
fn steps(d: usize, v: usize, c: usize) -> [u16; 18]
    requires { (d ≤ max_source) × (v ≤ max_vertices) × (c ≤ max_cells) }
    ensures { (j : ℕ) → j < 18 → slice_index result j ≡ step_of d v c j }
{
    let mut all = [0u16; 18];
    for j in 0..18 {
        all[j] = step(d, v, c, j);
    }
    all
}

// A word that is so much more; no neighbour stays none.
fn stepped(x: u16, more: u16) -> u16
    ensures { Stepped x more result }
{
    if x == EMPTY {
        return x;
    }
    x.wrapping_add(more)
}

// The record from place `from` on, at the next level.
fn stepped_row<const D: usize>(steps: &[u16; 18], from: usize, out: &[u16]) -> [u16; 18]
    requires { (D ≤ max_source) × (from + record_size (suc D) ≤ length out.now) }
    ensures { (j : ℕ) → j < record_size (suc D) →
        Stepped (slice_index out.now (from + j)) (slice_index steps.now j) (slice_index result j) }
{
    let mut row = [0u16; 18];
    for j in 0..record_size(D + 1) {
        row[j] = stepped(out[from + j], steps[j]);
    }
    row
}

// Writes such a record from place `to` on: all is read before any is written, so that the compiler makes both wide.
fn step_record<const D: usize>(steps: &[u16; 18], from: usize, to: usize, out: &mut [u16])
    requires { (D ≤ max_source) × (from + record_size (suc D) ≤ length out.old) × (to + record_size (suc D) ≤ length out.old) }
    ensures { SteppedTo (record_size (suc D)) from to steps.now out.old out.new }
{
    let n = record_size(D + 1);
    let row = stepped_row::<D>(steps, from, out);
    out[to..to + n].copy_from_slice(&row[..n]);
}

// Writes c records of n words together behind the first n words, each at the next level.
fn step_level<const D: usize>(v: usize, c: usize, n: usize, out: &mut [u16])
    requires { (D ≤ max_source) × (v ≤ max_vertices) × (c ≤ max_cells) × (n ≡ c * record_size (suc D)) × (n + n ≤ length out.old) }
    ensures { SteppedLevel D v c n c out.old out.new }
{
    let all = steps(D, v, c);
    let size = record_size(D + 1);
    for q in 0..c {
        let at = q * size;
        step_record::<D>(&all, at, n + at, out);
    }
}

// Level 1, of n words, where level 0 stands in its place.
pub fn second_level<const D: usize>(
    v: usize,
    s: usize,
    h: usize,
    table: &[u16],
    n: usize,
    out: &mut [u16],
)
    requires ready { Ready D v s h table.now }
    requires at { (1 < h) × (n ≡ s * prism_size D) }
    requires below { (e : ℕ) → e < n → Right 0 (level_words D v s h table.now 0) out.old e }
    requires room { n + n ≤ length out.old }
    ensures { out.new ≡ placed n (level_words D v s h table.now 1) out.old }
{
    step_level::<D>(v, s * (D + 1), n, out);
    join(D, v, s, h, table, 1, n, out);
}

// Level i + 2, of n words, where levels i and i + 1 stand in their places.
pub fn raise_level(
    d: usize,
    v: usize,
    s: usize,
    h: usize,
    table: &[u16],
    i: usize,
    n: usize,
    out: &mut [u16],
)
    requires ready { Ready d v s h table.now }
    requires at { (i + 2 < h) × (n ≡ s * prism_size d) }
    requires below { ((e : ℕ) → e < n → Right (i * n) (level_words d v s h table.now i) out.old e)
        × ((e : ℕ) → e < n → Right (i * n + n) (level_words d v s h table.now (i + 1)) out.old e) }
    requires room { i * n + n + n + n ≤ length out.old }
    ensures { out.new ≡ placed (i * n + n + n) (level_words d v s h table.now (i + 2)) out.old }
{
    raise(n, i * n, out);
    join(d, v, s, h, table, i + 2, i * n + n + n, out);
}
