// The wings of a table, compared with what its faces say: each key in its order is new, or meets the one earlier key that has its face. A new
// key with a wing waits for its pair; at the end none may wait.
ghost use Rattle.std.specs.Prelude.{◌≡◌, ◌⊎◌, true, ℕ, suc, ◌+◌, ◌*◌, ◌/◌, ◌%◌, ◌≤◌, ◌<◌, length};
ghost use Rattle.records.specs.Inner.Inside.{Table, Inside};
ghost use Rattle.soundness.specs.Inner.Certified.{Meets};
ghost use Rattle.soundness.specs.Inner.Pairing.{First, Second, Passing};

use crate::buckets::put;
use crate::faces::{opposite, same_face};
use records::reading::{sign, vertex, wing};
use records::sizes::{EMPTY, wings_words};

// Whether face b of q and face a of p meet.
fn meets(d: usize, s: usize, table: &[u16], q: usize, b: usize, p: usize, a: usize) -> bool
    requires { Inside d s q table.now × Inside d s p table.now × (b ≤ d) × (a ≤ d) }
    ensures { result ≡ true → Meets d table.now q b p a }
{
    if usize::from(wing(d, s, table, q, b)) != p {
        return false;
    }
    if usize::from(wing(d, s, table, p, a)) != q {
        return false;
    }
    if vertex(d, s, table, q, b) == vertex(d, s, table, p, a) {
        return false;
    }
    if !opposite(sign(d, s, table, q), b, sign(d, s, table, p), a) {
        return false;
    }
    same_face(d, s, table, q, b, p, a)
}

// Whether key f meets place a of p.
fn meets_key(d: usize, s: usize, table: &[u16], f: usize, p: usize, a: usize) -> bool
    requires { Table d s table.now × (f < s * suc d) × (p < s) × (a ≤ d) }
    ensures { result ≡ true → Meets d table.now (f / suc d) (f % suc d) p a }
{
    let k = d + 1;
    meets(d, s, table, f / k, f % k, p, a)
}

// The same; where the compiler knows the dimension it writes the loops out.
fn is_met(d: usize, s: usize, table: &[u16], f: usize, p: usize, a: usize) -> bool
    requires { Table d s table.now × (f < s * suc d) × (p < s) × (a ≤ d) }
    ensures { result ≡ true → Meets d table.now (f / suc d) (f % suc d) p a }
{
    if d == 1 {
        return meets_key(1, s, table, f, p, a);
    }
    if d == 2 {
        return meets_key(2, s, table, f, p, a);
    }
    if d == 3 {
        return meets_key(3, s, table, f, p, a);
    }
    if d == 4 {
        return meets_key(4, s, table, f, p, a);
    }
    if d == 5 {
        return meets_key(5, s, table, f, p, a);
    }
    if d == 6 {
        return meets_key(6, s, table, f, p, a);
    }
    if d == 7 {
        return meets_key(7, s, table, f, p, a);
    }
    meets_key(d, s, table, f, p, a)
}

// In place of a count: the table is given up.
const GIVEN_UP: usize = 65535;

// Key g, which is place a of cell p, where n wait; how many wait then.
fn pass(
    d: usize,
    s: usize,
    table: &[u16],
    hash: &[u32],
    head: &mut [u16],
    next: &mut [u16],
    g: usize,
    p: usize,
    a: usize,
    n: usize,
) -> usize
    requires { Passing d s table.now hash.now head.old next.old g n × (p < s) × (a ≤ d) × (g ≡ p * suc d + a) }
    ensures { (result ≡ 65535 → ⊥) → Passing d s table.now hash.now head.new next.new (g + 1) result }
{
    let f = put(hash, head, next, g, d + 9);
    if f == 65535 {
        if wing(d, s, table, p, a) == EMPTY {
            return n;
        }
        return n + 1;
    }
    if g <= f {
        return GIVEN_UP;
    }
    if is_met(d, s, table, f, p, a) {
        return n - 1;
    }
    GIVEN_UP
}

// All keys, in their order; whether all are right, and none waits.
pub(crate) fn all_right(
    d: usize,
    s: usize,
    table: &[u16],
    hash: &[u32],
    head: &mut [u16],
    next: &mut [u16],
) -> bool
    requires { Passing d s table.now hash.now head.old next.old 0 0 }
    ensures right { result ≡ true → (g : ℕ) → g < s * suc d → First d table.now (s * suc d) g ⊎ Second d table.now g }
    ensures long { (length head.new ≡ length head.old) × (length next.new ≡ length next.old) }
{
    let keys = wings_words(d, s);
    let mut n: usize = 0;
    let mut p: usize = 0;
    let mut a: usize = 0;
    for g in 0..keys {
        n = pass(d, s, table, hash, head, next, g, p, a, n);
        if n == GIVEN_UP {
            return false;
        }
        if a < d {
            a += 1;
        } else {
            a = 0;
            p += 1;
        }
    }
    n == 0
}
