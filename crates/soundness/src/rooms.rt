// The test in rooms for so many places, since memory is cleared before it is used: by codes up to 16,384 of them, by hashes beyond. A call takes
// the stack of its own room alone.
ghost use Rattle.std.specs.Prelude.{◌≡◌, true, ℕ, suc, ◌*◌, ◌≤◌, ◌<◌};
ghost use Rattle.rules.specs.Limits.{max_dimension};
ghost use Rattle.rules.specs.Shapes.{shape_ok};
ghost use Rattle.records.specs.Inner.Inside.{Table};
ghost use Rattle.solids.specs.Table.{sound};
ghost use Rattle.soundness.specs.Inner.Certified.{Fine};
ghost use Rattle.soundness.specs.Inner.Coding.{base_of, Rooms};
ghost use Rattle.soundness.specs.Inner.Hashing.{Arrays};

use crate::coded::all_coded;
use crate::codes::{base, codes};
use crate::hashing::hashes;
use crate::rows::all_fine;
use crate::wings::all_right;
use records::sizes::{EMPTY, table_words, wings_words};
use rules::limits::Shape;

// Whether a table of fine records is sound, told in lent arrays whose buckets are empty. False says nothing.
fn in_arrays(
    d: usize,
    v: usize,
    s: usize,
    table: &[u16],
    hash: &mut [u32],
    head: &mut [u16],
    next: &mut [u16],
) -> bool
    requires { Table d s table.now × (1 ≤ d) × (shape_ok max_dimension d v s ≡ true) × ((p : ℕ) → p < s → Fine d v table.now p)
        × Arrays (s * suc d) hash.old head.old next.old }
    ensures { result ≡ true → sound d v s table.now ≡ true }
{
    hashes(d, s, table, hash);
    all_right(d, s, table, hash, head, next)
}

// Whether a table whose vertices are to be below the base is sound, told by codes. False says nothing.
fn in_codes(
    d: usize,
    v: usize,
    s: usize,
    table: &[u16],
    hash: &mut [u32],
    code: &mut [u64],
    known: &mut [u16],
    head: &mut [u16],
    next: &mut [u16],
) -> bool
    requires { Table d s table.now × (1 ≤ d) × (shape_ok max_dimension d v s ≡ true) × (v ≤ base_of d)
        × Rooms (s * suc d) hash.old code.old known.old × Arrays (s * suc d) hash.old head.old next.old }
    ensures { result ≡ true → sound d v s table.now ≡ true }
{
    if !all_fine(d, v, s, table) {
        return false;
    }
    codes(d, s, table, hash, code, known);
    all_coded(d, s, table, hash, code, known, head, next)
}

// By codes, in a room for so many places. It stays a call, so that a caller's frame has no room in it.
#[inline(never)]
fn coded<const PLACES: usize, const KNOWN: usize, const BUCKETS: usize>(
    d: usize,
    v: usize,
    s: usize,
    table: &[u16],
) -> bool
    requires { Table d s table.now × (1 ≤ d) × (s * suc d ≤ PLACES) × (shape_ok max_dimension d v s ≡ true) × (v ≤ base_of d)
        × (PLACES * 3 ≤ KNOWN) × (KNOWN ≤ 65536) × (0 < BUCKETS) × (BUCKETS ≤ 65536) }
    ensures { result ≡ true → sound d v s table.now ≡ true }
{
    let mut hash = [0u32; PLACES];
    let mut code = [0u64; PLACES];
    let mut known = [0u16; KNOWN];
    let mut head = [EMPTY; BUCKETS];
    let mut next = [0u16; PLACES];
    in_codes(
        d, v, s, table, &mut hash, &mut code, &mut known, &mut head, &mut next,
    )
}

// By hashes, in the room for all places that there may be; it stays a call too.
#[inline(never)]
fn in_32768(d: usize, v: usize, s: usize, table: &[u16]) -> bool
    requires { Table d s table.now × (1 ≤ d) × (s * suc d ≤ 32768) × (shape_ok max_dimension d v s ≡ true) }
    ensures { result ≡ true → sound d v s table.now ≡ true }
{
    if !all_fine(d, v, s, table) {
        return false;
    }
    let mut hash = [0u32; 32768];
    let mut head = [EMPTY; 49152];
    let mut next = [0u16; 32768];
    in_arrays(d, v, s, table, &mut hash, &mut head, &mut next)
}

// Whether a table is sound, told from its wings in the room for so many places; false says nothing of one that is.
pub fn is_certified(d: usize, v: usize, s: usize, table: &[u16]) -> bool
    requires { 1 ≤ d }
    ensures { result ≡ true → sound d v s table.now ≡ true }
{
    if !Shape::within(Shape::MAX_DIMENSION, d, v, s) {
        return false;
    }
    if table.len() != table_words(d, s) {
        return false;
    }
    let n = wings_words(d, s);
    if (n <= 16384) & (v <= base(d)) {
        if n <= 256 {
            return coded::<256, 768, 512>(d, v, s, table);
        }
        if n <= 1024 {
            return coded::<1024, 3072, 2048>(d, v, s, table);
        }
        if n <= 2048 {
            return coded::<2048, 6144, 4096>(d, v, s, table);
        }
        if n <= 4096 {
            return coded::<4096, 12288, 8192>(d, v, s, table);
        }
        if n <= 8192 {
            return coded::<8192, 24576, 16384>(d, v, s, table);
        }
        return coded::<16384, 49152, 24576>(d, v, s, table);
    }
    in_32768(d, v, s, table)
}
