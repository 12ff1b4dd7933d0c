// The words of a sweep, written from place `at` of the lent buffer on; each writer answers the place behind its words.
// The dimension D of the solid is a const parameter, so that the compiler writes out the loops over faces, cells and vertices.
ghost use Rattle.std.specs.Prelude.{◌≡◌, ℕ, suc, ◌+◌, ◌*◌, ◌<◌, ◌≤◌, length};
ghost use Rattle.rules.specs.Limits.{max_cells, max_source};
ghost use Rattle.words.specs.Inner.Placed.{placed};
ghost use Rattle.sweeping.specs.Inner.Filling.{Right};
ghost use Rattle.sweeping.specs.Inner.Raising.{prism_size};
ghost use Rattle.sweeping.specs.Inner.SweptWords.{prism_words, level_words, all_words, Ready};

use crate::faces::put_faces;
use crate::heads::put_heads;
use crate::places::record_place;
use crate::raising::{raise_level, second_level};
use crate::vertices::put_vertices;
use records::sizes::record_size;

// The records over cell p at level i.
fn write_prism<const D: usize>(
    v: usize,
    s: usize,
    h: usize,
    table: &[u16],
    i: usize,
    p: usize,
    at: usize,
    out: &mut [u16],
) -> usize
    requires ready { Ready D v s h table.now }
    requires at { (i < h) × (p < s) }
    requires room { at + length (prism_words D v s h table.now i p) ≤ length out.old }
    ensures place { result ≡ at + length (prism_words D v s h table.now i p) }
    ensures words { out.new ≡ placed at (prism_words D v s h table.now i p) out.old }
{
    put_vertices::<D>(v, s, h, table, i, p, at, out);
    put_heads::<D>(v, s, h, table, i, p, at, out);
    put_faces::<D>(v, s, h, table, i, p, at, out);
    at + record_place(D, D + 1)
}

// The records of level i.
fn write_level<const D: usize>(
    v: usize,
    s: usize,
    h: usize,
    table: &[u16],
    i: usize,
    at: usize,
    out: &mut [u16],
) -> usize
    requires ready { Ready D v s h table.now }
    requires at { i < h }
    requires room { at + length (level_words D v s h table.now i) ≤ length out.old }
    ensures place { result ≡ at + length (level_words D v s h table.now i) }
    ensures words { out.new ≡ placed at (level_words D v s h table.now i) out.old }
{
    let mut next = at;
    for p in 0..s {
        next = write_prism::<D>(v, s, h, table, i, p, next, out);
    }
    next
}

// Words of a level. It stays a call: where the compiler knows of what the count is a multiple, it makes the loop of `raise` half as wide.
#[inline(never)]
fn level_size(d: usize, s: usize) -> usize
    requires { (d ≤ max_source) × (s * suc d ≤ max_cells) }
    ensures { result ≡ s * prism_size d }
{
    s * (d + 1) * record_size(d + 1)
}

// Level i of n words, in its place, where those below stand in theirs: the first from the table, the others raised.
fn next_level<const D: usize>(
    v: usize,
    s: usize,
    h: usize,
    table: &[u16],
    i: usize,
    n: usize,
    out: &mut [u16],
)
    requires ready { Ready D v s h table.now }
    requires at { (i < h) × (n ≡ s * prism_size D) }
    requires below { (x e : ℕ) → x < i → e < n → Right (x * n) (level_words D v s h table.now x) out.old e }
    requires room { i * n + n ≤ length out.old }
    ensures { out.new ≡ placed (i * n) (level_words D v s h table.now i) out.old }
{
    if i == 0 {
        let _behind = write_level::<D>(v, s, h, table, 0, 0, out);
        return;
    }
    if i == 1 {
        second_level::<D>(v, s, h, table, n, out);
        return;
    }
    raise_level(D, v, s, h, table, i - 2, n, out);
}

// All levels, from the start of the buffer. It stays a call: seven of them would make what sweep is put into too large to be put into its own
// caller (`swept_key` of page), and then the arrays of both are on the stack at once.
#[inline(never)]
fn write_levels<const D: usize>(
    v: usize,
    s: usize,
    h: usize,
    table: &[u16],
    out: &mut [u16],
) -> usize
    requires ready { Ready D v s h table.now }
    requires room { length (all_words D v s h table.now) ≤ length out.old }
    ensures place { result ≡ length (all_words D v s h table.now) }
    ensures words { out.new ≡ placed 0 (all_words D v s h table.now) out.old }
{
    if h == 0 {
        return 0;
    }
    let n = level_size(D, s);
    for i in 0..h {
        next_level::<D>(v, s, h, table, i, n, out);
    }
    h * n
}

// The same, by dimension.
pub fn write_swept(d: usize, v: usize, s: usize, h: usize, table: &[u16], out: &mut [u16]) -> usize
    requires ready { Ready d v s h table.now }
    requires room { length (all_words d v s h table.now) ≤ length out.old }
    ensures place { result ≡ length (all_words d v s h table.now) }
    ensures words { out.new ≡ placed 0 (all_words d v s h table.now) out.old }
{
    match d {
        0 => write_levels::<0>(v, s, h, table, out),
        1 => write_levels::<1>(v, s, h, table, out),
        2 => write_levels::<2>(v, s, h, table, out),
        3 => write_levels::<3>(v, s, h, table, out),
        4 => write_levels::<4>(v, s, h, table, out),
        5 => write_levels::<5>(v, s, h, table, out),
        _ => write_levels::<6>(v, s, h, table, out),
    }
}
