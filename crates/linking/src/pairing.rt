// Keys in their order, each put into its bucket and paired with the last before it that has its hash. Where that is not the only one with its
// face, or not one with another apex and the opposite sign, the search is given up.
ghost use Rattle.std.specs.Prelude.{◌≡◌, true, ℕ, suc, ◌+◌, ◌*◌, ◌/◌, ◌%◌, ◌≤◌, ◌<◌, length};
ghost use Rattle.records.specs.Inner.Inside.{Table, Inside};
ghost use Rattle.linking.specs.Inner.Linking.{Apt, Joined, Linkable, Linking, SameCells};

use crate::setting::set_wing;
use records::reading::{sign, vertex, wing};
use records::sizes::EMPTY;
use soundness::buckets::put;
use soundness::faces::{opposite, same_face};

// Whether place b of cell q can be paired with place a of cell p.
fn is_apt(d: usize, s: usize, table: &[u16], q: usize, b: usize, p: usize, a: usize) -> bool
    requires { Inside d s q table.now × Inside d s p table.now × (b ≤ d) × (a ≤ d) }
    ensures { result ≡ true → Apt d table.now q b p a }
{
    if wing(d, s, table, q, b) != EMPTY {
        return false;
    }
    if vertex(d, s, table, q, b) == vertex(d, s, table, p, a) {
        return false;
    }
    if !opposite(sign(d, s, table, q), b, sign(d, s, table, p), a) {
        return false;
    }
    same_face(d, s, table, q, b, p, a)
}

// Pairs them: each gets the other's cell.
fn join(d: usize, s: usize, table: &mut [u16], q: usize, b: usize, p: usize, a: usize)
    requires { Inside d s q table.old × Inside d s p table.old × (b ≤ d) × (a ≤ d) × (s ≤ 4096) × (q ≡ p → b ≡ a → ⊥) }
    ensures { Joined d s table.old table.new q b p a }
{
    set_wing(d, s, table, q, b, p as u16);
    set_wing(d, s, table, p, a, q as u16);
}

// Pairs key f with place a of cell p, if it can be.
fn meet(d: usize, s: usize, table: &mut [u16], f: usize, p: usize, a: usize) -> bool
    requires { Table d s table.old × (f < s * suc d) × (p < s) × (a ≤ d) }
    ensures { result ≡ true → Apt d table.old (f / suc d) (f % suc d) p a
        × Joined d s table.old table.new (f / suc d) (f % suc d) p a }
{
    let q = f / (d + 1);
    let b = f % (d + 1);
    if is_apt(d, s, table, q, b, p, a) {
        join(d, s, table, q, b, p, a);
        return true;
    }
    false
}

// The same; where the compiler knows the dimension it divides by a product.
fn pair(d: usize, s: usize, table: &mut [u16], f: usize, p: usize, a: usize) -> bool
    requires { Table d s table.old × (f < s * suc d) × (p < s) × (a ≤ d) }
    ensures { result ≡ true → Apt d table.old (f / suc d) (f % suc d) p a
        × Joined d s table.old table.new (f / suc d) (f % suc d) p a }
{
    if d == 1 {
        return meet(1, s, table, f, p, a);
    }
    if d == 2 {
        return meet(2, s, table, f, p, a);
    }
    if d == 3 {
        return meet(3, s, table, f, p, a);
    }
    if d == 4 {
        return meet(4, s, table, f, p, a);
    }
    if d == 5 {
        return meet(5, s, table, f, p, a);
    }
    if d == 6 {
        return meet(6, s, table, f, p, a);
    }
    if d == 7 {
        return meet(7, s, table, f, p, a);
    }
    meet(d, s, table, f, p, a)
}

// Puts key g, which is place a of cell p, into its bucket, and pairs it with the last key before it that has its hash, if there is one.
fn link(
    d: usize,
    s: usize,
    table: &mut [u16],
    hash: &[u32],
    head: &mut [u16],
    next: &mut [u16],
    g: usize,
    p: usize,
    a: usize,
) -> bool
    requires { Linkable d s table.old hash.now head.old next.old g × (p < s) × (a ≤ d) × (g ≡ p * suc d + a) }
    ensures { result ≡ true → SameCells d s table.old table.new
        × Linkable d s table.new hash.now head.new next.new (g + 1) }
{
    let f = put(hash, head, next, g, d + 9);
    if f == 65535 {
        return true;
    }
    if g <= f {
        return false;
    }
    pair(d, s, table, f, p, a)
}

// All n keys, in their order; whether none is given up. It is one flat loop, in which the choice by dimension costs least.
pub fn link_all(
    d: usize,
    s: usize,
    n: usize,
    table: &mut [u16],
    hash: &[u32],
    head: &mut [u16],
    next: &mut [u16],
) -> bool
    requires { Linkable d s table.old hash.now head.old next.old 0 × (n ≡ s * suc d) }
    ensures linked { result ≡ true → SameCells d s table.old table.new × Linking d n table.new n }
    ensures long { (length head.new ≡ length head.old) × (length next.new ≡ length next.old) }
{
    let mut p: usize = 0;
    let mut a: usize = 0;
    for g in 0..n {
        if !link(d, s, table, hash, head, next, g, p, a) {
            return false;
        }
        if a < d {
            a += 1;
        } else {
            a = 0;
            p += 1;
        }
    }
    true
}
