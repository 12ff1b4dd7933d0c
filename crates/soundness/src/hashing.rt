// The hashes of the faces at all places of a table.
ghost use Rattle.std.specs.Prelude.{◌≡◌, ℕ, suc, ◌+◌, ◌*◌, ◌-◌, ◌^◌, ◌≤◌, ◌<◌, length, get_or};
ghost use Rattle.records.specs.Inner.Inside.{Table, Inside, vertex_in};
ghost use Rattle.soundness.specs.Inner.Certified.{row_in};
ghost use Rattle.soundness.specs.Inner.Hashing.{term, weight, scattered, linear, Hashes};

use crate::keys::key;
use records::reading::vertex;

// The weight of a vertex: a polynomial of degree three, so that two faces of one weight are rare.
fn term(x: u16) -> u64
    ensures { (result ≡ term x) × (result < 2 ^ 60) }
{
    let v = u64::from(x);
    v * (v * (v + 123456789) + 362436069)
}

// The hash of a weight less one of its terms.
fn scattered(sum: u64, t: u64) -> u32
    requires { t ≤ sum }
    ensures { result ≡ scattered (sum - t) }
{
    ((sum - t) % 4294967296 * 2654435769 / 4294967296) as u32
}

// The hash of a single vertex: vertices close together are far apart, and do not meet in a bucket.
fn linear(x: u16) -> u32
    ensures { result ≡ linear x }
{
    (u64::from(x) * 2654435769 % 4294967296) as u32
}

// The weights of a cell's vertices, and their sum.
#[derive(Drop)]
struct Weights {
    each: [u64; 8],
    sum: u64,
}

// Those of cell p.
fn terms(d: usize, s: usize, table: &[u16], p: usize) -> Weights
    requires { Inside d s p table.now }
    ensures each { (length result.each ≡ 8) × ((j : ℕ) → j ≤ d → get_or result.each j 0 ≡ term (vertex_in d table.now p j)) }
    ensures sum { result.sum ≡ weight (row_in d table.now p) }
{
    let mut each = [0u64; 8];
    let mut sum: u64 = 0;
    for j in 0..d + 1 {
        let t = term(vertex(d, s, table, p, j));
        each[j] = t;
        sum += t;
    }
    Weights { each, sum }
}

// Puts the hashes of cell p.
fn hash_cell(d: usize, s: usize, table: &[u16], p: usize, hash: &mut [u32])
    requires { (2 ≤ d) × Inside d s p table.now × (s ≤ 4096) × (s * suc d ≤ length hash.old) × Hashes d table.now hash.old (p * suc d) }
    ensures hashed { Hashes d table.now hash.new (p * suc d + suc d) }
    ensures long { length hash.new ≡ length hash.old }
{
    let cell = terms(d, s, table, p);
    for a in 0..d + 1 {
        let g = key(d, s, p, a);
        hash[g] = scattered(cell.sum, cell.each[a]);
    }
}

// Puts those of all cells.
fn hash_all(d: usize, s: usize, table: &[u16], hash: &mut [u32])
    requires { (2 ≤ d) × Table d s table.now × (s * suc d ≤ length hash.old) }
    ensures hashed { Hashes d table.now hash.new (s * suc d) }
    ensures long { length hash.new ≡ length hash.old }
{
    for p in 0..s {
        hash_cell(d, s, table, p, hash);
    }
}

// Puts those of segment p: a face has the other vertex.
fn hash_segment(s: usize, table: &[u16], p: usize, hash: &mut [u32])
    requires { Inside 1 s p table.now × (s ≤ 4096) × (s * 2 ≤ length hash.old) × Hashes 1 table.now hash.old (p * 2) }
    ensures hashed { Hashes 1 table.now hash.new (p * 2 + 2) }
    ensures long { length hash.new ≡ length hash.old }
{
    let x = linear(vertex(1, s, table, p, 0));
    let y = linear(vertex(1, s, table, p, 1));
    hash[p * 2] = y;
    hash[p * 2 + 1] = x;
}

// Puts those of all segments.
fn hash_segments(s: usize, table: &[u16], hash: &mut [u32])
    requires { Table 1 s table.now × (s * 2 ≤ length hash.old) }
    ensures hashed { Hashes 1 table.now hash.new (s * 2) }
    ensures long { length hash.new ≡ length hash.old }
{
    for p in 0..s {
        hash_segment(s, table, p, hash);
    }
}

// The same; where the compiler knows the dimension it writes the loops out.
pub fn hashes(d: usize, s: usize, table: &[u16], hash: &mut [u32])
    requires { (1 ≤ d) × Table d s table.now × (s * suc d ≤ length hash.old) }
    ensures hashed { Hashes d table.now hash.new (s * suc d) }
    ensures long { length hash.new ≡ length hash.old }
{
    if d == 1 {
        hash_segments(s, table, hash);
        return;
    }
    if d == 2 {
        hash_all(2, s, table, hash);
        return;
    }
    if d == 3 {
        hash_all(3, s, table, hash);
        return;
    }
    if d == 4 {
        hash_all(4, s, table, hash);
        return;
    }
    if d == 5 {
        hash_all(5, s, table, hash);
        return;
    }
    if d == 6 {
        hash_all(6, s, table, hash);
        return;
    }
    if d == 7 {
        hash_all(7, s, table, hash);
        return;
    }
    hash_all(d, s, table, hash);
}
