// Floats of a file, read by their bits, and row 4 of the refusal table.
ghost use Rattle.std.specs.Prelude.{◌≡◌, true, not, ◌++◌, ◌+◌, ◌≤◌, length};
ghost use Rattle.words.specs.Records.{all_of, tabulate};
ghost use Rattle.words.specs.Bytes.{float64};
ghost use Rattle.rules.specs.Calls.{written};
ghost use Rattle.points.specs.Step.{in_range};
ghost use Rattle.file.specs.File.{header_size, amount_of, point_count, file_length, file_points};
ghost use Rattle.file.specs.Tests.{floats_ok};

use crate::numbers;
use points::range;
use words::little;

// Whether the float at a place is finite, and of magnitude below 1,048,576. An exponent field of 2047 is an infinity's
// or a NaN's.
fn in_range(b: &[u8], at: usize) -> bool
    requires { at + 8 ≤ length b.now }
    ensures { result ≡ in_range (float64 b.now at) }
{
    let bits = little::word64(b, at);
    let exponent = bits % 9223372036854775808 / 4503599627370496;
    if exponent == 2047 {
        return false;
    }
    range::in_range(f64::from_bits(bits))
}

// The float at a place, one in range.
pub(crate) fn float_at(b: &[u8], at: usize) -> f64
    requires { (at + 8 ≤ length b.now) × (in_range (float64 b.now at) ≡ true) }
    ensures { result ≡ float64 b.now at }
{
    f64::from_bits(little::word64(b, at))
}

fn amounts_in_range(b: &[u8]) -> bool
    requires { header_size ≤ length b.now }
    ensures { result ≡ all_of in_range (tabulate 3 (amount_of b.now)) }
{
    in_range(b, 16) & (in_range(b, 24) & in_range(b, 32))
}

fn points_in_range(b: &[u8]) -> bool
    requires { length b.now ≡ file_length b.now }
    ensures { result ≡ all_of in_range (file_points b.now) }
{
    let count = numbers::point_count(b);
    for k in 0..count {
        if !in_range(b, 40 + k * 8) {
            return false;
        }
    }
    true
}

// Row 4: a float of the header or a point, used or not, that is not in range.
pub fn out_of_range(b: &[u8]) -> bool
    requires { length b.now ≡ file_length b.now }
    ensures { result ≡ not (floats_ok b.now) }
{
    !(amounts_in_range(b) & points_in_range(b))
}

// Writes the points from the start of `out`.
pub fn write_points(b: &[u8], out: &mut [f64])
    requires { (length b.now ≡ file_length b.now) × (all_of in_range (file_points b.now) ≡ true) × (point_count b.now ≤ length out.old) }
    ensures { out.new ≡ written (file_points b.now) out.old }
{
    let count = numbers::point_count(b);
    for k in 0..count {
        out[k] = float_at(b, 40 + k * 8);
    }
}
