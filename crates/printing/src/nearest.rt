// Coordinates to thousandths, by whole numbers alone. A float of magnitude below 2^20 is m / 2^k, with m below 2^53.
ghost use Rattle.std.specs.Prelude.{◌≡◌, true};
ghost use Rattle.points.specs.Step.{in_range};
ghost use Rattle.printing.specs.Decimal.{thousandths, negative};

// The magnitude in thousandths, to the nearest, at a half to the even one: a half is added to an odd number, and just less
// to an even one. The exponent's field is 1075 - k. From k = 64 on the magnitude is less than half a thousandth.
pub(crate) fn thousandths_of(x: f64) -> u64
    requires { in_range x ≡ true }
    ensures { result ≡ thousandths x }
{
    let b = f64::to_bits(x) % 9223372036854775808;
    let field = b / 4503599627370496;
    if field < 1012 {
        return 0;
    }
    let k = 1075 - field;
    let a = 1000 * (4503599627370496 + b % 4503599627370496);
    let half: u64 = 1 << (k - 1);
    let odd = (a >> k) % 2;
    (a + half - 1 + odd) >> k
}

// Whether the sign bit is set.
pub(crate) fn is_negative(x: f64) -> bool
    requires { in_range x ≡ true }
    ensures { result ≡ negative x }
{
    9223372036854775808 <= f64::to_bits(x)
}
