// Keys that are equal: for each key, the last earlier one with the same row.
// Each key is linked to the last earlier key of its bucket; from the last key down, each link is then
// followed back to a key with the same row. Where that takes more than a few steps a key, the keys are classed instead.
#![tactic(auto)]

pub mod classes;

ghost use Rattle.std.specs.Prelude.{◌≡◌, true, cond, ℕ, ◌+◌, ◌*◌, ◌-◌, ◌/◌, ◌%◌, ◌^◌, ◌<◌, ◌≤◌, ltb, length, get_or, replicate};
ghost use Rattle.simplex.specs.Cell.{same_row};
ghost use Rattle.simplex.specs.Faces.{without};
ghost use Rattle.matching.specs.Inner.Links.{Linked, Linking};
ghost use Rattle.matching.specs.Inner.Matching.{Keyed, cell_row, key_row, earlier, Behind};
ghost use Rattle.matching.specs.Inner.Buckets.{term, weight, bucket_at};

use crate::classes::by_classes;

// The weight of a vertex.
fn term(x: u16) -> u64
    ensures { (result ≡ term x) × (result < 2 ^ 50) }
{
    let v = u64::from(x);
    v * (v * (v + 5903) + 12421)
}

// The weights of a cell's vertices, and of its row.
#[derive(Drop)]
struct Terms {
    each: [u64; 8],
    sum: u64,
}

// Those of cell p. There are always eight turns, which the compiler writes out.
fn weigh(k: usize, p: usize, rows: &[u16; 32768]) -> Terms
    requires { (k ≤ 8) × (p < 4096) }
    ensures terms { (a : ℕ) → a < k → get_or result.each a 0 ≡ term (get_or rows.now (p * 8 + a) 0) }
    ensures sum { result.sum ≡ weight (cell_row rows.now k p) }
{
    let mut terms = [0u64; 8];
    let mut sum: u64 = 0;
    for j in 0..8 {
        if j < k {
            let t = term(rows[p * 8 + j]);
            terms[j] = t;
            sum += t;
        }
    }
    Terms { each: terms, sum }
}

// The bucket of a row of that weight, less position a, whose vertices have these weights.
fn bucket(k: usize, a: usize, sum: u64, terms: &[u64; 8]) -> usize
    requires { (k ≤ 8) × (a < k → get_or terms.now a 0 ≤ sum) }
    ensures { (result ≡ cond (ltb a k) (sum - get_or terms.now a 0) sum % 32749) × (result < 32768) }
{
    if a < k {
        ((sum - terms[a]) % 32749) as usize
    } else {
        (sum % 32749) as usize
    }
}

// How many of k vertices are left without position a.
fn kept(k: usize, a: usize) -> usize
    ensures { result ≡ cond (ltb a k) (k - 1) k }
{
    if a < k { k - 1 } else { k }
}

// Where vertex j stands, of those left without position a.
fn stands(a: usize, j: usize) -> usize
    requires { j < 8 }
    ensures { result ≡ cond (ltb j a) j (j + 1) }
{
    if j < a { j } else { j + 1 }
}

// Whether the row of cell p less position a is that of cell q less position b. The loop's bound is a number, so that the
// compiler writes it out.
fn same_key(k: usize, rows: &[u16; 32768], p: usize, a: usize, q: usize, b: usize) -> bool
    requires { (length rows.now ≡ 32768) × (k ≤ 8) × (p < 4096) × (q < 4096) }
    ensures { result ≡ same_row (without a (cell_row rows.now k p)) (without b (cell_row rows.now k q)) }
{
    let m = kept(k, a);
    if kept(k, b) != m {
        return false;
    }
    for j in 0..8 {
        if m <= j {
            return true;
        }
        if rows[p * 8 + stands(a, j)] != rows[q * 8 + stands(b, j)] {
            return false;
        }
    }
    true
}

// The cell of a key and its number among the keys of that cell.
#[derive(Drop)]
pub struct Place {
    pub cell: usize,
    pub at: usize,
}

// The place of key f, of w keys a cell. The quotient f / w is taken by a product with part, a part of
// 1048576 cut into w and one more.
pub fn place_of(f: usize, w: usize, part: usize) -> Place
    requires { (f < 32768) × (0 < w) × (w ≤ 8) × (part ≡ 1048576 / w + 1) }
    ensures { (result.cell ≡ f / w) × (result.at ≡ f % w) }
{
    let cell = f * part / 1048576;
    Place {
        cell,
        at: f - cell * w,
    }
}

// What following links back finds, and how many steps are left; where none are, nothing is found.
#[derive(Drop)]
struct Found {
    key: u16,
    left: usize,
}

// How keys are cut from cells: a cell has w keys, each its row of k vertices less one of the positions from first; and part,
// by which place_of finds a key's place.
#[derive(Clone, Copy)]
struct Keys {
    k: usize,
    w: usize,
    first: usize,
    part: usize,
}

impl Keys {
    // Links the keys of cell p.
    fn link_cell(
        self,
        p: usize,
        rows: &[u16; 32768],
        head: &mut [u16; 32768],
        prev: &mut [u16; 32768],
    )
        requires keyed { Keyed rows.now self.k self.w self.first × (p < 4096) }
        requires linking { Linking (bucket_at (key_row rows.now self.k self.w self.first)) head.old prev.old 32768 (p * self.w) }
        ensures linking_2 { Linking (bucket_at (key_row rows.now self.k self.w self.first)) head.new prev.new 32768 (p * self.w + self.w) }
        ensures behind { Behind (p * self.w + self.w) prev.new prev.old }
    {
        let weighed = weigh(self.k, p, rows);
        let terms = weighed.each;
        let sum = weighed.sum;
        for i in 0..self.w {
            let b = bucket(self.k, self.first + i, sum, &terms);
            let g = p * self.w + i;
            prev[g] = head[b];
            head[b] = g as u16;
        }
    }

    // Links each key of s cells to the last earlier key of its bucket; head is lent without heads.
    fn link(self, s: usize, rows: &[u16; 32768], head: &mut [u16; 32768], prev: &mut [u16; 32768])
        requires { Keyed rows.now self.k self.w self.first × (s ≤ 4096) × (length prev.old ≡ 32768) × (head.old ≡ replicate 32768 65535) }
        ensures linked { Linked (bucket_at (key_row rows.now self.k self.w self.first)) prev.new (s * self.w) }
        ensures prev_len { (length prev.new ≡ 32768) × (length head.new ≡ 32768) }
        ensures behind { Behind (s * self.w) prev.new prev.old }
    {
        for p in 0..s {
            self.link_cell(p, rows, head, prev);
        }
    }

    // The last key before g with the row of g, or 65535: the links are followed back from g, in fewer steps than left.
    fn back(self, rows: &[u16; 32768], prev: &[u16; 32768], g: usize, left: usize) -> Found
        requires keyed { Keyed rows.now self.k self.w self.first × (self.part ≡ 1048576 / self.w + 1) × (g < 4096 * self.w) }
        requires linked { Linked (bucket_at (key_row rows.now self.k self.w self.first)) prev.now (g + 1) }
        ensures { 0 < result.left → result.key ≡ earlier rows.now self.k self.w self.first g }
    {
        let here = place_of(g, self.w, self.part);
        let mut left = left;
        let mut f = prev[g];
        while f != 65535 {
            if left == 0 {
                return Found { key: f, left };
            }
            left -= 1;
            let x = f as usize;
            let there = place_of(x, self.w, self.part);
            let a = self.first + there.at;
            let b = self.first + here.at;
            if same_key(self.k, rows, there.cell, a, here.cell, b) {
                return Found { key: f, left };
            }
            f = prev[x];
        }
        Found { key: 65535, left }
    }

    // Replaces the links of n keys by the last earlier keys with the same rows, from the last key down. Whether that was done
    // in fewer than two steps a key.
    fn settle(self, n: usize, rows: &[u16; 32768], prev: &mut [u16; 32768]) -> bool
        requires keyed { Keyed rows.now self.k self.w self.first × (self.part ≡ 1048576 / self.w + 1)
            × (n ≤ 4096 * self.w) × (length prev.old ≡ 32768) }
        requires linked { Linked (bucket_at (key_row rows.now self.k self.w self.first)) prev.old n }
        ensures prev_len { length prev.new ≡ 32768 }
        ensures g_after { result ≡ true → (g : ℕ) → g < n → get_or prev.new g 0 ≡ earlier rows.now self.k self.w self.first g }
        ensures behind { Behind n prev.new prev.old }
    {
        let mut left = n * 2;
        for g in (0..n).rev() {
            let found = self.back(rows, prev, g, left);
            left = found.left;
            if left == 0 {
                return false;
            }
            prev[g] = found.key;
        }
        true
    }
}

// For each key of s cells the last earlier key with the same row, or 65535; what stands behind the keys stays. A cell
// has w keys: its row of k vertices less one of the positions from first. Position k and beyond leave the row whole.
pub fn earlier_equal(
    s: usize,
    k: usize,
    w: usize,
    first: usize,
    rows: &[u16; 32768],
    prev: &mut [u16; 32768],
)
    requires { Keyed rows.now k w first × (s ≤ 4096) × (length prev.old ≡ 32768) }
    ensures prev_len { length prev.new ≡ 32768 }
    ensures by_index { (g : ℕ) → g < s * w → get_or prev.new g 0 ≡ earlier rows.now k w first g }
    ensures behind { Behind (s * w) prev.new prev.old }
{
    let part = 1048576 / w + 1;
    let keys = Keys { k, w, first, part };
    let mut spare = [65535u16; 32768];
    keys.link(s, rows, &mut spare, prev);
    if keys.settle(s * w, rows, prev) {
        return;
    }
    by_classes(s * w, k, w, first, part, rows, &mut spare, prev);
}
