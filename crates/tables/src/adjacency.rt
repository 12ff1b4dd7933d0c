// Rows 9 to 11, and wings, from the keys that were seen before: prev[g] is the last key before g with the
// row of key g, or 65535. k keys belong to a cell.
ghost use Rattle.std.specs.Prelude.{false, ◌||◌, ◌&&◌, List, ◌≡◌, ℕ, ◌+◌, ◌*◌, ◌/◌, ◌<◌, ◌≤◌, eqb, length, get_or};
ghost use Rattle.rules.specs.Numbers.{verdict_of};
ghost use Rattle.words.specs.Records.{any_below};
ghost use Rattle.simplex.specs.Cell.{Sign, times, alternating};
ghost use Rattle.solids.specs.Accept.{cell_twice};
ghost use Rattle.tables.specs.Inner.Scan.{seen_at};
ghost use Rattle.tables.specs.Inner.Pairing.{Met, Pairing};
ghost use Rattle.tables.specs.Inner.Held.{held_cells, falls, faults, Blank, Winged};

use matching::{Place, earlier_equal, place_of};
use rules::refusal::Refusal;
use simplex::sign_words::product;

// Whether key g was seen before.
fn seen(n: usize, g: usize, prev: &[u16; 32768]) -> bool
    requires { g < 32768 }
    ensures { result ≡ seen_at n prev.now g }
{
    usize::from(prev[g]) < n
}

fn any_seen(n: usize, prev: &[u16; 32768]) -> bool
    requires { n ≤ 32768 }
    ensures { result ≡ any_below n (seen_at n prev.now) }
{
    for g in 0..n {
        if seen(n, g, prev) {
            return true;
        }
    }
    false
}

// 9: whether two of the s cells have the same row.
fn any_repeated(d: usize, s: usize, rows: &[u16; 32768], prev: &mut [u16; 32768]) -> bool
    requires { (d ≤ 7) × (s ≤ 4096) × (length rows.now ≡ 32768) × (length prev.old ≡ 32768) }
    ensures { (signs : List Sign) (made : ℕ → ℕ) → result ≡ cell_twice (held_cells d s rows.now signs made) }
{
    let k = d + 1;
    earlier_equal(s, k, 1, k, rows, prev);
    any_seen(s, prev)
}

// The sign of the face of cell p at position a: that of the cell times (-1)^a.
fn face_sign(p: usize, a: usize, signs: &[bool; 4096]) -> bool
    requires { p < 4096 }
    ensures { result ≡ times (alternating a) (get_or signs.now p false) }
{
    product(a % 2 == 0, signs[p])
}

// Whether both positions are 0 and cells p and q have the same first vertex.
fn same_first(p: usize, a: usize, q: usize, b: usize, rows: &[u16; 32768]) -> bool
    requires { (p < 4096) × (q < 4096) }
    ensures { result ≡ (eqb a 0 && (eqb b 0 && eqb (get_or rows.now (p * 8) 0) (get_or rows.now (q * 8) 0))) }
{
    a == 0 && b == 0 && rows[p * 8] == rows[q * 8]
}

// What pairing finds among the keys passed: one that was seen before where that key was seen too; one at position 0
// of a cell and that key at position 0 of a cell with the same first vertex; one that was seen before with its sign. All three may hold.
#[derive(Drop)]
struct Found {
    crowded: bool,
    repeated: bool,
    equal: bool,
}

// The face of cell p at position a and that of cell q at position b, which is key f, have the same row.
fn meet(
    n: usize,
    p: usize,
    a: usize,
    f: usize,
    q: usize,
    b: usize,
    rows: &[u16; 32768],
    signs: &[bool; 4096],
    prev: &[u16; 32768],
    found: Found,
) -> Found
    requires { (p < 4096) × (q < 4096) × (f < 32768) }
    ensures crowded { result.crowded ≡ (seen_at n prev.now f || found.crowded) }
    ensures repeated { result.repeated
        ≡ ((eqb a 0 && (eqb b 0 && eqb (get_or rows.now (p * 8) 0) (get_or rows.now (q * 8) 0))) || found.repeated) }
    ensures equal { result.equal ≡ (times (times (alternating a) (get_or signs.now p false))
        (times (alternating b) (get_or signs.now q false)) || found.equal) }
{
    let like = product(face_sign(p, a, signs), face_sign(q, b, signs));
    Found {
        crowded: seen(n, f, prev) || found.crowded,
        repeated: same_first(p, a, q, b, rows) || found.repeated,
        equal: like || found.equal,
    }
}

// Key g, at this place, and the key that was seen before it get each other's cells.
fn pair_at(
    n: usize,
    k: usize,
    part: usize,
    p: usize,
    a: usize,
    g: usize,
    rows: &[u16; 32768],
    signs: &[bool; 4096],
    prev: &[u16; 32768],
    wings: &mut [u16; 32768],
    found: Found,
) -> Found
    requires k_nonzero { (0 < k) × (k ≤ 8) × (part ≡ 1048576 / k + 1) × (n ≤ 4096 * k) }
    requires a_lt_k { (a < k) × (g ≡ p * k + a) × (g < n) × (length wings.old ≡ 32768) }
    ensures { Met k n rows.now signs.now prev.now g wings.old
        found.crowded found.repeated found.equal wings.new result.crowded result.repeated result.equal }
{
    let f = usize::from(prev[g]);
    if f < n {
        let there = place_of(f, k, part);
        let q = there.cell;
        wings[g] = q as u16;
        wings[f] = p as u16;
        return meet(n, p, a, f, q, there.at, rows, signs, prev, found);
    }
    found
}

// The next place.
fn next(here: Place, k: usize) -> Place
    requires { (here.at < k) × (k ≤ 8) × (here.cell < 4096) }
    ensures { (result.at < k) × (result.cell * k + result.at ≡ here.cell * k + here.at + 1) }
{
    let a = here.at + 1;
    if a < k {
        return Place {
            cell: here.cell,
            at: a,
        };
    }
    Place {
        cell: here.cell + 1,
        at: 0,
    }
}

// Pairs the n keys.
fn pair(
    n: usize,
    k: usize,
    rows: &[u16; 32768],
    signs: &[bool; 4096],
    prev: &[u16; 32768],
    wings: &mut [u16; 32768],
) -> Found
    requires { (0 < k) × (k ≤ 8) × (n ≤ 4096 * k) × (length wings.old ≡ 32768) }
    ensures { Pairing k n rows.now signs.now prev.now
        n wings.old wings.new result.crowded result.repeated result.equal }
{
    let part = 1048576 / k + 1;
    let mut found = Found {
        crowded: false,
        repeated: false,
        equal: false,
    };
    let mut here = Place { cell: 0, at: 0 };
    for g in 0..n {
        let p = here.cell;
        let a = here.at;
        found = pair_at(n, k, part, p, a, g, rows, signs, prev, wings, found);
        here = next(here, k);
    }
    found
}

// The first of rows 9 to 11 that refuses s cells whose rows ascend, whatever their materials, and their wings if none does. Where
// no face is in three cells, two cells with the same row are met at their faces.
pub fn adjacent(
    d: usize,
    s: usize,
    rows: &[u16; 32768],
    signs: &[bool; 4096],
    wings: &mut [u16; 32768],
) -> Result<(), Refusal>
    requires d_bound { (d ≤ 7) × (s ≤ 4096) × (length rows.now ≡ 32768) × Blank wings.old }
    requires rows_value { any_below s (falls d rows.now) ≡ false }
    ensures fault { (made : ℕ → ℕ) → verdict_of result ≡ faults (held_cells d s rows.now signs.now made) }
    ensures wings { (made : ℕ → ℕ) → verdict_of result ≡ 0 →
        Winged d (held_cells d s rows.now signs.now made) wings.new }
{
    let mut prev = [65535u16; 32768];
    if d == 0 {
        if any_repeated(d, s, rows, &mut prev) {
            return Err(Refusal::CellTwice);
        }
        return Ok(());
    }
    let k = d + 1;
    earlier_equal(s, k, k, 0, rows, &mut prev);
    let found = pair(s * k, k, rows, signs, &prev, wings);
    if found.crowded {
        if any_repeated(d, s, rows, &mut prev) {
            return Err(Refusal::CellTwice);
        }
        return Err(Refusal::CrowdedFace);
    }
    if found.repeated {
        return Err(Refusal::CellTwice);
    }
    if found.equal {
        return Err(Refusal::EqualSigns);
    }
    Ok(())
}
