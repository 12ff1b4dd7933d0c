// The call list: it takes a table and its points and writes the key's text, in the form of a version.
#![tactic(auto)]

ghost use Rattle.std.specs.Prelude.{◌≡◌, ◌&&◌, ◌*◌, ◌≤◌, eqb, length};
ghost use Rattle.rules.specs.Numbers.{outcome_of};
ghost use Rattle.records.specs.Layout.{table_length};
ghost use Rattle.list.specs.List.{numbers_fit, list_input, list_outcome, list_buffer};

use listing::key::{key_size, put_key};
use points::range::all_in_range;
use records::sizes::table_words;
use rules::limits::{Shape, axes_ok, version_ok};
use rules::refusal::Refusal;
use soundness::is_sound;

// Row 2: whether it passes.
pub fn numbers_fit(version: usize, d: usize, n: usize, v: usize, s: usize) -> bool
    ensures { result ≡ numbers_fit version d n v s }
{
    version_ok(version) && Shape::within(Shape::MAX_DIMENSION, d, v, s) && axes_ok(n)
}

// Row 3.
fn lengths_fit(d: usize, n: usize, v: usize, s: usize, table: &[u16], points: &[f64]) -> bool
    requires { (d ≤ 7) × (n ≤ 8) × (v ≤ 4096) × (s ≤ 4096) }
    ensures { result ≡ (eqb (length table.now) (table_length d s) && eqb (length points.now) (v * n)) }
{
    table.len() == table_words(d, s) && points.len() == v * n
}

// Version 2 has the material at the end of each face's line; with version 1 materials are left out.
pub fn list(
    version: usize,
    d: usize,
    n: usize,
    v: usize,
    s: usize,
    table: &[u16],
    points: &[f64],
    out: &mut [u8],
) -> Result<usize, Refusal>
    ensures answer { outcome_of result
        ≡ list_outcome (list_input version d n v s table.now points.now (length out.old)) }
    ensures buffer { out.new
        ≡ list_buffer (list_input version d n v s table.now points.now (length out.old)) out.old }
{
    if !numbers_fit(version, d, n, v, s) {
        return Err(Refusal::OutsideLimits);
    }
    if !lengths_fit(d, n, v, s, table, points) {
        return Err(Refusal::WrongLength);
    }
    if !all_in_range(points) {
        return Err(Refusal::FloatRange);
    }
    if !is_sound(d, v, s, table) {
        return Err(Refusal::Unsound);
    }
    let size = key_size(version, d, n, v, s, table, points);
    let bytes = size.bytes;
    if out.len() < bytes {
        return Err(Refusal::NoRoom);
    }
    put_key(version, d, n, v, s, size.count, table, points, out);
    Ok(bytes)
}
