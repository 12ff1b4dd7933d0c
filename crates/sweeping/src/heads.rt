// The sign words and materials of the cells over one cell, and their wings below and above.
ghost use Rattle.std.specs.Prelude.{◌≡◌, ℕ, suc, ◌+◌, ◌-◌, ◌<◌, ◌≤◌, length, if◌then◌else◌, nat_eq, nat_lt};
ghost use Rattle.rules.specs.Limits.{max_cells};
ghost use Rattle.sweeping.specs.Inner.Filling.{Kept};
ghost use Rattle.sweeping.specs.Inner.PrismPlaces.{HeadOf, HeadRight};
ghost use Rattle.sweeping.specs.Inner.SweptWords.{prism_words, Ready};

use crate::places::record_place;
use crate::wings::{cell_number, wing_above, wing_below};
use records::reading::{material, sign};
use records::sizes::{MATERIAL, first_wing};
use simplex::sign_words::turned;

#[derive(Clone, Copy)]
struct Head {
    sign: u16,
    material: u16,
    first: usize,
    top: u16,
    bottom: u16,
}

// The wing above cell k: the next cell, or what is above them all.
fn above(d: usize, k: usize, first: usize, top: u16) -> u16
    requires { first + d ≤ max_cells }
    ensures { result ≡ (if nat_lt k d then first + suc k else top) }
{
    if k < d {
        return (first + k + 1) as u16;
    }
    top
}

// The wing below it: the cell before, or what is below them all.
fn below(d: usize, k: usize, first: usize, bottom: u16) -> u16
    requires { (first + d ≤ max_cells) × (k ≤ d) }
    ensures { result ≡ (if nat_eq k 0 then bottom else first + (k - 1)) }
{
    if k == 0 {
        return bottom;
    }
    (first + (k - 1)) as u16
}

// What the heads over cell p share.
fn head_of(d: usize, v: usize, s: usize, h: usize, table: &[u16], i: usize, p: usize) -> Head
    requires ready { Ready d v s h table.now }
    requires at { (i < h) × (p < s) }
    ensures { HeadOf d s h table.now i p result }
{
    Head {
        sign: sign(d, s, table, p),
        material: material(d, s, table, p),
        first: usize::from(cell_number(d, s, h, i, p, 0)),
        top: wing_above(d, s, h, i, p, d),
        bottom: wing_below(d, s, h, i, p, 0),
    }
}

// Those of cell k. `first` is the number of the first cell, and top and bottom are above and below them all.
fn put_head<const D: usize>(
    v: usize,
    s: usize,
    h: usize,
    table: &[u16],
    i: usize,
    p: usize,
    x: Head,
    k: usize,
    at: usize,
    out: &mut [u16],
)
    requires ready { Ready D v s h table.now }
    requires at { (i < h) × (p < s) × (k ≤ D) × HeadOf D s h table.now i p x }
    requires room { at + length (prism_words D v s h table.now i p) ≤ length out.old }
    ensures kept { Kept at (prism_words D v s h table.now i p) out.old out.new }
    ensures right { HeadRight D at (prism_words D v s h table.now i p) out.new k }
{
    let to = at + record_place(D, k);
    let wings = to + first_wing(D + 1);
    out[to] = turned(x.sign, k * D);
    out[to + MATERIAL] = x.material;
    out[wings] = above(D, k, x.first, x.top);
    out[wings + (D + 1)] = below(D, k, x.first, x.bottom);
}

// Those of all.
pub fn put_heads<const D: usize>(
    v: usize,
    s: usize,
    h: usize,
    table: &[u16],
    i: usize,
    p: usize,
    at: usize,
    out: &mut [u16],
)
    requires ready { Ready D v s h table.now }
    requires at { (i < h) × (p < s) }
    requires room { at + length (prism_words D v s h table.now i p) ≤ length out.old }
    ensures kept { Kept at (prism_words D v s h table.now i p) out.old out.new }
    ensures right { (k : ℕ) → k ≤ D → HeadRight D at (prism_words D v s h table.now i p) out.new k }
{
    let x = head_of(D, v, s, h, table, i, p);
    for k in 0..D + 1 {
        put_head::<D>(v, s, h, table, i, p, x, k, at, out);
    }
}
