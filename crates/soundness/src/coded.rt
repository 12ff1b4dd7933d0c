// The wings of a table, compared with what the codes of its faces say: each key in its order is new, or meets the one earlier key that has its
// face. All that is asked of a key stands in arrays by keys, so that nothing is looked up in the table.
ghost use Rattle.std.specs.Prelude.{◌≡◌, ◌⊎◌, true, ℕ, suc, ◌+◌, ◌*◌, ◌<◌, length};
ghost use Rattle.records.specs.Inner.Inside.{Table};
ghost use Rattle.soundness.specs.Inner.Coding.{Coded};
ghost use Rattle.soundness.specs.Inner.Pairing.{First, MeetsAt, Second, PassingAlike};

use crate::buckets::put;
use records::sizes::{EMPTY, wings_words};

// Whether keys f and g meet.
fn is_met(
    d: usize,
    s: usize,
    table: &[u16],
    hash: &[u32],
    code: &[u64],
    known: &[u16],
    f: usize,
    g: usize,
) -> bool
    requires { Table d s table.now × Coded d s table.now hash.now code.now known.now
        × (f < s * suc d) × (g < s * suc d) }
    ensures { result ≡ true → MeetsAt d table.now f g }
{
    if known[f * 3] != known[g * 3 + 1] {
        return false;
    }
    if known[g * 3] != known[f * 3 + 1] {
        return false;
    }
    if known[f * 3 + 2] == known[g * 3 + 2] {
        return false;
    }
    let x = code[f];
    let y = code[g];
    if x / 2 != y / 2 {
        return false;
    }
    x != y
}

// In place of a count: the table is given up.
const GIVEN_UP: usize = 65535;

// Key g, where n wait; how many wait then.
fn pass(
    d: usize,
    s: usize,
    table: &[u16],
    hash: &[u32],
    code: &[u64],
    known: &[u16],
    head: &mut [u16],
    next: &mut [u16],
    g: usize,
    n: usize,
) -> usize
    requires { PassingAlike d s table.now hash.now head.old next.old g n × (g < s * suc d)
        × Coded d s table.now hash.now code.now known.now }
    ensures { (result ≡ 65535 → ⊥) → PassingAlike d s table.now hash.now head.new next.new (g + 1) result }
{
    let f = put(hash, head, next, g, 16);
    if f == 65535 {
        if known[g * 3] == EMPTY {
            return n;
        }
        return n + 1;
    }
    if g <= f {
        return GIVEN_UP;
    }
    if is_met(d, s, table, hash, code, known, f, g) {
        return n - 1;
    }
    GIVEN_UP
}

// All keys, in their order; whether all are right, and none waits.
pub(crate) fn all_coded(
    d: usize,
    s: usize,
    table: &[u16],
    hash: &[u32],
    code: &[u64],
    known: &[u16],
    head: &mut [u16],
    next: &mut [u16],
) -> bool
    requires { PassingAlike d s table.now hash.now head.old next.old 0 0
        × Coded d s table.now hash.now code.now known.now }
    ensures right { result ≡ true → (g : ℕ) → g < s * suc d → First d table.now (s * suc d) g ⊎ Second d table.now g }
    ensures long { (length head.new ≡ length head.old) × (length next.new ≡ length next.old) }
{
    let keys = wings_words(d, s);
    let mut n: usize = 0;
    for g in 0..keys {
        n = pass(d, s, table, hash, code, known, head, next, g, n);
        if n == GIVEN_UP {
            return false;
        }
    }
    n == 0
}
