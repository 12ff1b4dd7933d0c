// The faces at all places of a table as numbers in a base above all vertices, with what else tells whether two of them meet, key by key.
ghost use Rattle.std.specs.Prelude.{◌≡◌, ℕ, suc, ◌+◌, ◌*◌, ◌^◌, ◌≤◌, ◌<◌};
ghost use Rattle.records.specs.Inner.Inside.{Table, Inside};
ghost use Rattle.soundness.specs.Inner.Certified.{row_in, face_in};
ghost use Rattle.soundness.specs.Inner.Coding.{base_of, code_of, mixed, Under, CodedTo, Coded, Rooms};

use crate::keys::key;
use records::reading::{sign, vertex, wing};
use simplex::sign_words::turned;

// The hash of a code.
fn mixed(n: u64) -> u32
    ensures { result ≡ mixed n }
{
    ((n % 4294967296 * 2654435769 % 4294967296 + n / 4294967296 * 2246822519 % 4294967296)
        % 4294967296) as u32
}

// The code of the vertices of cell p.
fn row_code(d: usize, b: u64, s: usize, table: &[u16], p: usize) -> u64
    requires { Inside d s p table.now × Under b (row_in d table.now p) × (b ^ suc d ≤ 9223372036854775808) × (0 < b) }
    ensures { result ≡ code_of b (row_in d table.now p) }
{
    let mut c: u64 = 0;
    for j in (0..d + 1).rev() {
        c = c * b + u64::from(vertex(d, s, table, p, j));
    }
    c
}

// Puts what is known of place a of cell p, whose face has this code.
fn put_key(
    d: usize,
    b: u64,
    s: usize,
    table: &[u16],
    p: usize,
    a: usize,
    face: u64,
    hash: &mut [u32],
    code: &mut [u64],
    known: &mut [u16],
)
    requires { Inside d s p table.now × (a ≤ d) × (s ≤ 4096) × Rooms (s * suc d) hash.old code.old known.old
        × (face ≡ code_of b (face_in d table.now p a)) × (face < 9223372036854775808)
        × CodedTo d b table.now hash.old code.old known.old (p * suc d + a) }
    ensures told { CodedTo d b table.now hash.new code.new known.new (p * suc d + (a + 1)) }
    ensures room { Rooms (s * suc d) hash.new code.new known.new }
{
    let g = key(d, s, p, a);
    hash[g] = mixed(face);
    code[g] = face * 2 + u64::from(turned(sign(d, s, table, p), a));
    known[g * 3] = wing(d, s, table, p, a);
    known[g * 3 + 1] = p as u16;
    known[g * 3 + 2] = vertex(d, s, table, p, a);
}

// Puts what is known of all places of cell p. The code of a face has the digits of the cell's but for one: those before it as they are, and those
// behind it one place earlier.
fn put_cell(
    d: usize,
    b: u64,
    s: usize,
    table: &[u16],
    p: usize,
    hash: &mut [u32],
    code: &mut [u64],
    known: &mut [u16],
)
    requires { Inside d s p table.now × (s ≤ 4096) × Under b (row_in d table.now p) × (b ^ suc d ≤ 9223372036854775808) × (0 < b)
        × Rooms (s * suc d) hash.old code.old known.old
        × CodedTo d b table.now hash.old code.old known.old (p * suc d) }
    ensures told { CodedTo d b table.now hash.new code.new known.new (p * suc d + (d + 1)) }
    ensures room { Rooms (s * suc d) hash.new code.new known.new }
{
    let c = row_code(d, b, s, table, p);
    let mut one: u64 = 1;
    for a in 0..d + 1 {
        put_key(
            d,
            b,
            s,
            table,
            p,
            a,
            c % one + c / one / b * one,
            hash,
            code,
            known,
        );
        one *= b;
    }
}

// Puts what is known of all places of all cells.
fn put_all(
    d: usize,
    b: u64,
    s: usize,
    table: &[u16],
    hash: &mut [u32],
    code: &mut [u64],
    known: &mut [u16],
)
    requires { Table d s table.now × ((p : ℕ) → p < s → Under b (row_in d table.now p)) × (b ^ suc d ≤ 9223372036854775808) × (0 < b)
        × Rooms (s * suc d) hash.old code.old known.old }
    ensures { Coded d s table.now hash.new code.new known.new }
{
    for p in 0..s {
        put_cell(d, b, s, table, p, hash, code, known);
    }
}

// The same; where the compiler knows the dimension it writes the loops out.
pub fn codes(
    d: usize,
    s: usize,
    table: &[u16],
    hash: &mut [u32],
    code: &mut [u64],
    known: &mut [u16],
)
    requires { (1 ≤ d) × Table d s table.now × ((p : ℕ) → p < s → Under (base_of d) (row_in d table.now p))
        × Rooms (s * suc d) hash.old code.old known.old }
    ensures { Coded d s table.now hash.new code.new known.new }
{
    if d == 1 {
        put_all(1, 4096, s, table, hash, code, known);
        return;
    }
    if d == 2 {
        put_all(2, 4096, s, table, hash, code, known);
        return;
    }
    if d == 3 {
        put_all(3, 4096, s, table, hash, code, known);
        return;
    }
    if d == 4 {
        put_all(4, 4096, s, table, hash, code, known);
        return;
    }
    if d == 5 {
        put_all(5, 1024, s, table, hash, code, known);
        return;
    }
    if d == 6 {
        put_all(6, 512, s, table, hash, code, known);
        return;
    }
    put_all(7, 128, s, table, hash, code, known);
}

// The base for cells of dimension d.
pub fn base(d: usize) -> usize
    ensures { result ≡ base_of d }
{
    if d < 5 {
        return 4096;
    }
    if d < 6 {
        return 1024;
    }
    if d < 7 {
        return 512;
    }
    128
}
