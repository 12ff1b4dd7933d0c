// A line writer: it holds lent bytes and the place of the next byte. Each function takes it apart and calls one that
// writes at a place of a slice. The functions of `lines` make a writer and use it up.
ghost use Rattle.std.specs.Prelude.{◌≡◌, true, [], ◌∷◌, ◌+◌, ◌≤◌, ◌<◌, length};
ghost use Rattle.words.specs.Records.{all_of};
ghost use Rattle.points.specs.Step.{in_range};
ghost use Rattle.printing.specs.Fields.{fields, point_fields};
ghost use Rattle.words.specs.Inner.Placed.{Put};
ghost use Rattle.printing.specs.Inner.Advanced.{writer_at, advanced};

use crate::fields::{put_fields, put_points};
use crate::writing::{put_byte, put_text};

#[derive(Drop)]
pub struct LineWriter<'a> {
    pub buf: &'a mut [u8],
    pub at: usize,
}

// The line's word at a place. The writer stands after it.
pub(crate) fn begin<'a, 'b>(buf: &'a mut [u8], at: usize, word: &'b [u8]) -> LineWriter<'a>
    requires { at + length word.now ≤ length buf.old }
    ensures { result ≡ advanced (writer_at buf.entry at) word.now }
{
    let next = put_text(&mut *buf, at, word);
    LineWriter { buf: buf, at: next }
}

// A field for each number.
pub(crate) fn numbers<'a, 'b>(w: LineWriter<'a>, words: &'b [u16]) -> LineWriter<'a>
    requires { w.at + length (fields words.now) ≤ length w.buf.now }
    ensures { result ≡ advanced w.entry (fields words.now) }
{
    let at = w.at;
    let next = put_fields(&mut *w.buf, at, words);
    LineWriter {
        buf: w.buf,
        at: next,
    }
}

// A field for each coordinate.
pub(crate) fn coordinates<'a, 'b>(w: LineWriter<'a>, points: &'b [f64]) -> LineWriter<'a>
    requires { (all_of in_range points.now ≡ true) × (w.at + length (point_fields points.now) ≤ length w.buf.now) }
    ensures { result ≡ advanced w.entry (point_fields points.now) }
{
    let at = w.at;
    let next = put_points(&mut *w.buf, at, points);
    LineWriter {
        buf: w.buf,
        at: next,
    }
}

// The line feed. The answer is the place after it.
pub(crate) fn end<'a>(w: LineWriter<'a>) -> usize
    requires { w.at < length w.buf.now }
    ensures { Put w.entry.at (10 ∷ []) w.entry.buf.now result w.exit.0.now }
{
    let at = w.at;
    put_byte(&mut *w.buf, at, b'\n')
}
