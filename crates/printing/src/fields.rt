// Fields of a line, each with a space before it: those of numbers and those of coordinates.
ghost use Rattle.std.specs.Prelude.{◌≡◌, true, ◌+◌, ◌≤◌, length};
ghost use Rattle.words.specs.Records.{all_of};
ghost use Rattle.points.specs.Step.{in_range};
ghost use Rattle.printing.specs.Fields.{fields, point_fields};
ghost use Rattle.words.specs.Inner.Placed.{Put};

use crate::lengths::digits_len;
use crate::writing::{put_field, put_point};

// How many bytes the fields of at most 8 numbers have.
pub fn fields_len(words: &[u16]) -> usize
    requires { length words.now ≤ 8 }
    ensures { result ≡ length (fields words.now) }
{
    let mut count = 0;
    for word in words {
        count += 1 + digits_len(u64::from(*word));
    }
    count
}

pub(crate) fn put_fields(buf: &mut [u8], at: usize, words: &[u16]) -> usize
    requires { at + length (fields words.now) ≤ length buf.old }
    ensures { Put at (fields words.now) buf.old result buf.new }
{
    let mut cur = at;
    for word in words {
        cur = put_field(buf, cur, u64::from(*word));
    }
    cur
}

pub(crate) fn put_points(buf: &mut [u8], at: usize, points: &[f64]) -> usize
    requires { (all_of in_range points.now ≡ true) × (at + length (point_fields points.now) ≤ length buf.old) }
    ensures { Put at (point_fields points.now) buf.old result buf.new }
{
    let mut cur = at;
    for point in points {
        cur = put_point(buf, cur, *point);
    }
    cur
}
