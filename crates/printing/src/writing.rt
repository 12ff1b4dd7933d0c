// Pieces of the text, each written at a place of a lent buffer. The answer is the place after it.
ghost use Rattle.std.specs.Prelude.{◌≡◌, true, [], ◌∷◌, ◌+◌, ◌≤◌, ◌<◌, length};
ghost use Rattle.points.specs.Step.{in_range};
ghost use Rattle.printing.specs.Decimal.{digit, digits, coordinate};
ghost use Rattle.printing.specs.Fields.{minus_text, decimals_text, thousandths_text, field, point_field};
ghost use Rattle.words.specs.Inner.Placed.{Put};

use crate::lengths::digits_len;
use crate::nearest::{is_negative, thousandths_of};

pub fn put_byte(buf: &mut [u8], at: usize, b: u8) -> usize
    requires { at < length buf.old }
    ensures { Put at (b ∷ []) buf.old result buf.new }
{
    buf[at] = b;
    at + 1
}

// A fixed text. It is copied by a loop, since the compiler makes the library's copy of lent bytes ask a host for memmove.
pub fn put_text(buf: &mut [u8], at: usize, text: &[u8]) -> usize
    requires { at + length text.now ≤ length buf.old }
    ensures { Put at text.now buf.old result buf.new }
{
    for i in 0..text.len() {
        buf[at + i] = text[i];
    }
    at + text.len()
}

// The byte of a number's last digit.
fn digit_byte(n: u64) -> u8
    ensures { result ≡ digit n }
{
    (48 + n % 10) as u8
}

// A number in decimal, from its last digit to its first.
pub fn put_number(buf: &mut [u8], at: usize, n: u64) -> usize
    requires { at + length (digits n) ≤ length buf.old }
    ensures { Put at (digits n) buf.old result buf.new }
{
    let end = at + digits_len(n);
    let mut rest = n;
    for place in (at..end).rev() {
        buf[place] = digit_byte(rest);
        rest /= 10;
    }
    end
}

// A minus sign, if the number is negative and its thousandths are not 0.
fn put_minus(buf: &mut [u8], at: usize, minus: bool, t: u64) -> usize
    requires { at + length (minus_text minus t) ≤ length buf.old }
    ensures { Put at (minus_text minus t) buf.old result buf.new }
{
    if minus & (0 < t) {
        return put_byte(buf, at, b'-');
    }
    at
}

// The last digit of a number.
fn put_digit(buf: &mut [u8], at: usize, n: u64) -> usize
    requires { at < length buf.old }
    ensures { Put at (digit n ∷ []) buf.old result buf.new }
{
    put_byte(buf, at, digit_byte(n))
}

// The point and the three decimals of a number of thousandths.
fn put_decimals(buf: &mut [u8], at: usize, t: u64) -> usize
    requires { at + 4 ≤ length buf.old }
    ensures { Put at (decimals_text t) buf.old result buf.new }
{
    let tenths = put_byte(buf, at, b'.');
    let hundredths = put_digit(buf, tenths, t / 100);
    let last = put_digit(buf, hundredths, t / 10);
    put_digit(buf, last, t)
}

// A number of thousandths, with a minus sign if it is to have one.
fn put_thousandths(buf: &mut [u8], at: usize, minus: bool, t: u64) -> usize
    requires { at + length (thousandths_text minus t) ≤ length buf.old }
    ensures { Put at (thousandths_text minus t) buf.old result buf.new }
{
    let start = put_minus(buf, at, minus, t);
    let point = put_number(buf, start, t / 1000);
    put_decimals(buf, point, t)
}

fn put_coordinate(buf: &mut [u8], at: usize, x: f64) -> usize
    requires { (in_range x ≡ true) × (at + length (coordinate x) ≤ length buf.old) }
    ensures { Put at (coordinate x) buf.old result buf.new }
{
    let t = thousandths_of(x);
    put_thousandths(buf, at, is_negative(x), t)
}

// A number's field, with the space before it.
pub(crate) fn put_field(buf: &mut [u8], at: usize, n: u64) -> usize
    requires { at + length (field n) ≤ length buf.old }
    ensures { Put at (field n) buf.old result buf.new }
{
    let start = put_byte(buf, at, b' ');
    put_number(buf, start, n)
}

// A coordinate's field, with the space before it.
pub(crate) fn put_point(buf: &mut [u8], at: usize, x: f64) -> usize
    requires { (in_range x ≡ true) × (at + length (point_field x) ≤ length buf.old) }
    ensures { Put at (point_field x) buf.old result buf.new }
{
    let first = put_byte(buf, at, b' ');
    put_coordinate(buf, first, x)
}
