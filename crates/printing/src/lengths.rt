// How many bytes a piece of the text has, so that a short buffer is refused before anything is written.
ghost use Rattle.std.specs.Prelude.{◌≡◌, true, length};
ghost use Rattle.points.specs.Step.{in_range};
ghost use Rattle.printing.specs.Decimal.{digits, coordinate};
ghost use Rattle.printing.specs.Fields.{minus_text};

use crate::nearest::{is_negative, thousandths_of};

// Of a number in decimal.
pub fn digits_len(n: u64) -> usize
    ensures { result ≡ length (digits n) }
{
    if n == 0 {
        return 1;
    }
    n.ilog10() as usize + 1
}

fn minus_len(minus: bool, t: u64) -> usize
    ensures { result ≡ length (minus_text minus t) }
{
    if minus & (0 < t) {
        return 1;
    }
    0
}

// Of a coordinate with three decimals.
pub fn coordinate_len(x: f64) -> usize
    requires { in_range x ≡ true }
    ensures { result ≡ length (coordinate x) }
{
    let t = thousandths_of(x);
    minus_len(is_negative(x), t) + digits_len(t / 1000) + 4
}
