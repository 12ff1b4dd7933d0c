// The kinds of line, each written at a place of lent bytes by a line writer. The answer is the place after the line.
// Whoever calls these sees slices and numbers only.
ghost use Rattle.std.specs.Prelude.{◌≡◌, true, ◌++◌, map, ◌+◌, ◌≤◌, length};
ghost use Rattle.words.specs.Records.{all_of};
ghost use Rattle.points.specs.Step.{in_range};
ghost use Rattle.printing.specs.Decimal.{digits, coordinate};
ghost use Rattle.printing.specs.Fields.{line, fields, point_fields};
ghost use Rattle.words.specs.Inner.Placed.{Put};
ghost use Rattle.printing.specs.Inner.Advanced.{writer_at, advanced};

use crate::line_writer::{LineWriter, begin, coordinates, end, numbers};

// A vertex's line but for its line feed. The writer stands after it.
fn vertex_writer<'a, 'b>(
    buf: &'a mut [u8],
    at: usize,
    word: &'b [u8],
    number: &'b [u16],
    point: &'b [f64],
) -> LineWriter<'a>
    requires { (all_of in_range point.now ≡ true)
        × (at + (length word.now + (length (fields number.now) + length (point_fields point.now))) ≤ length buf.old) }
    ensures { result
        ≡ advanced (advanced (advanced (writer_at buf.entry at) word.now) (fields number.now)) (point_fields point.now) }
{
    let w = coordinates(numbers(begin(buf, at, word), number), point);
    w
}

// A face's line but for its line feed. The writer stands after it.
fn face_writer<'a, 'b>(
    buf: &'a mut [u8],
    at: usize,
    sign: &'b [u8],
    low: &'b [u16],
    high: &'b [u16],
) -> LineWriter<'a>
    requires { at + (length sign.now + (length (fields low.now) + length (fields high.now))) ≤ length buf.old }
    ensures { result
        ≡ advanced (advanced (advanced (writer_at buf.entry at) sign.now) (fields low.now)) (fields high.now) }
{
    let w = numbers(numbers(begin(buf, at, sign), low), high);
    w
}

// A word, a vertex's number and its coordinates.
pub fn vertex_line<'a, 'b>(
    buf: &'a mut [u8],
    at: usize,
    word: &'b [u8],
    number: &'b [u16],
    point: &'b [f64],
) -> usize
    requires { (all_of in_range point.now ≡ true)
        × (at + length (line word.now (map digits number.now ++ map coordinate point.now)) ≤ length buf.old) }
    ensures { Put at (line word.now (map digits number.now ++ map coordinate point.now))
        buf.old result buf.new }
{
    let w = vertex_writer(buf, at, word, number, point);
    end(w)
}

// A sign and the vertices before and after the one that is left out.
pub fn face_line<'a, 'b>(
    buf: &'a mut [u8],
    at: usize,
    sign: &'b [u8],
    low: &'b [u16],
    high: &'b [u16],
) -> usize
    requires { at + length (line sign.now (map digits (low.now ++ high.now))) ≤ length buf.old }
    ensures { Put at (line sign.now (map digits (low.now ++ high.now))) buf.old result buf.new }
{
    let w = face_writer(buf, at, sign, low, high);
    end(w)
}

// A word and counts: a line of numbers, none of them left out.
pub fn first_line<'a>(buf: &mut [u8], at: usize, word: &'a [u8], counts: &'a [u16]) -> usize
    requires { at + length (line word.now (map digits counts.now)) ≤ length buf.old }
    ensures { Put at (line word.now (map digits counts.now)) buf.old result buf.new }
{
    let none: usize = 0;
    face_line(buf, at, word, &counts[..none], counts)
}
