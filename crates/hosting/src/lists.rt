// The call list on bytes.
ghost use Rattle.std.specs.Prelude.{◌≡◌, true, ◌&&◌, ◌*◌, ◌≤◌, eqb, length};
ghost use Rattle.words.specs.Records.{all_of};
ghost use Rattle.rules.specs.Limits.{max_dimension, max_axes, max_vertices, max_cells};
ghost use Rattle.rules.specs.Numbers.{outcome_of};
ghost use Rattle.records.specs.Layout.{table_length};
ghost use Rattle.points.specs.Step.{in_range};
ghost use Rattle.list.specs.List.{list_outcome, list_buffer};
ghost use Rattle.hosting.specs.Floats.{floats64};
ghost use Rattle.hosting.specs.Inner.Rooms.{table_room, float_room};
ghost use Rattle.hosting.specs.Lists.{host_list_input, host_list_outcome, host_list_buffer};

use crate::floats;
use crate::floats::FLOAT_ROOM;
use list::{list, numbers_fit};
use records::sizes::{TABLE_ROOM, table_words};
use rules::refusal::Refusal;
use words::copy;

// Row 3: two bytes for each word of the table, eight for each float of the points.
fn lengths_fit(d: usize, n: usize, v: usize, s: usize, table: usize, points: usize) -> bool
    requires { (d ≤ max_dimension) × (n ≤ max_axes) × (v ≤ max_vertices) × (s ≤ max_cells) }
    ensures { result ≡ (eqb table (table_length d s * 2) && eqb points (v * n * 8)) }
{
    table == table_words(d, s) * 2 && points == v * n * 8
}

// List on bytes of the right lengths, whose floats are in range.
fn list_decoded(
    version: usize,
    d: usize,
    n: usize,
    v: usize,
    s: usize,
    table: &[u8],
    points: &[u8],
    text: &mut [u8],
) -> Result<usize, Refusal>
    requires { (length table.now ≤ table_room * 2) × (length points.now ≤ float_room * 8) × (all_of in_range (floats64 points.now) ≡ true) }
    ensures answer { outcome_of result
        ≡ list_outcome (host_list_input version d n v s table.now points.now text.old) }
    ensures buffer { text.new
        ≡ list_buffer (host_list_input version d n v s table.now points.now text.old) text.old }
{
    let size = table.len() / 2;
    let count = points.len() / 8;
    let mut words = [0u16; TABLE_ROOM];
    let mut floats = [0.0f64; FLOAT_ROOM];
    copy::decode(table, &mut words);
    floats::decode(points, &mut floats);
    list(version, d, n, v, s, &words[..size], &floats[..count], text)
}

pub fn list_bytes(
    version: usize,
    d: usize,
    n: usize,
    v: usize,
    s: usize,
    table: &[u8],
    points: &[u8],
    text: &mut [u8],
) -> Result<usize, Refusal>
    ensures answer { outcome_of result ≡ host_list_outcome version d n v s table.now points.now text.old }
    ensures buffer { text.new ≡ host_list_buffer version d n v s table.now points.now text.old }
{
    if !numbers_fit(version, d, n, v, s) {
        return Err(Refusal::OutsideLimits);
    }
    if !lengths_fit(d, n, v, s, table.len(), points.len()) {
        return Err(Refusal::WrongLength);
    }
    if !floats::all_in_range(points) {
        return Err(Refusal::FloatRange);
    }
    list_decoded(version, d, n, v, s, table, points, text)
}
