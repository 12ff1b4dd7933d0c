// The vertices of the cells over one cell.
ghost use Rattle.std.specs.Prelude.{◌≡◌, ℕ, suc, ◌+◌, ◌-◌, ◌*◌, ◌<◌, ◌≤◌, length};
ghost use Rattle.rules.specs.Limits.{max_vertices, swept_vertices};
ghost use Rattle.records.specs.Layout.{record_size, vertex_place};
ghost use Rattle.prism.specs.Cells.{at_level};
ghost use Rattle.sweeping.specs.Inner.Filling.{Right, Kept};
ghost use Rattle.sweeping.specs.Inner.RecordWords.{swept_vertex};
ghost use Rattle.sweeping.specs.Inner.SweptWords.{prism_words, Ready};

use crate::places::record_place;
use crate::reading::vertex;
use records::sizes::VERTICES;

// Vertex x at level i.
fn lift(v: usize, h: usize, i: usize, x: usize) -> u16
    requires { (swept_vertices v h ≤ max_vertices) × (i ≤ h) × (x < v) }
    ensures { result ≡ at_level v i x }
{
    (x + i * v) as u16
}

// Word m of the vertices at this level and the next, one behind the other: in cells `low` to `high`, one place earlier in each. A row that is
// copied to each cell instead is stored word by word and read at once, for which the machine waits.
fn put_column<const D: usize>(
    v: usize,
    s: usize,
    h: usize,
    table: &[u16],
    i: usize,
    p: usize,
    m: usize,
    x: u16,
    low: usize,
    high: usize,
    at: usize,
    out: &mut [u16],
)
    requires ready { Ready D v s h table.now }
    requires at { (i < h) × (p < s) × (high ≤ D) × (high ≤ m) × (low ≤ high) × (m ≤ low + suc D) }
    requires word { (k : ℕ) → low ≤ k → k ≤ high → x ≡ swept_vertex D v s table.now i p k (m - k) }
    requires room { at + length (prism_words D v s h table.now i p) ≤ length out.old }
    ensures kept { Kept at (prism_words D v s h table.now i p) out.old out.new }
    ensures right { (k : ℕ) → low ≤ k → k ≤ high →
        Right at (prism_words D v s h table.now i p) out.new (k * record_size (suc D) + vertex_place (m - k)) }
{
    for k in low..high + 1 {
        out[at + (record_place(D, k) + (VERTICES + (m - k)))] = x;
    }
}

// Cell k has d + 2 of the vertices at this level and the next, one behind the other, from vertex k on.
pub fn put_vertices<const D: usize>(
    v: usize,
    s: usize,
    h: usize,
    table: &[u16],
    i: usize,
    p: usize,
    at: usize,
    out: &mut [u16],
)
    requires ready { Ready D v s h table.now }
    requires at { (i < h) × (p < s) }
    requires room { at + length (prism_words D v s h table.now i p) ≤ length out.old }
    ensures kept { Kept at (prism_words D v s h table.now i p) out.old out.new }
    ensures vertices { (k j : ℕ) → k ≤ D → j ≤ suc D →
        Right at (prism_words D v s h table.now i p) out.new (k * record_size (suc D) + vertex_place j) }
{
    for j in 0..D + 1 {
        let x = usize::from(vertex(D, s, table, p, j));
        put_column::<D>(v, s, h, table, i, p, j, lift(v, h, i, x), 0, j, at, out);
        put_column::<D>(
            v,
            s,
            h,
            table,
            i,
            p,
            j + (D + 1),
            lift(v, h, i + 1, x),
            j,
            D,
            at,
            out,
        );
    }
}
