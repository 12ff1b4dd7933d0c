// Floats in bytes, by their bits. No NaN is ever made: bits are tested before they become a float.
ghost use Rattle.std.specs.Prelude.{◌≡◌, true, ◌+◌, ◌*◌, ◌/◌, ◌≤◌, length};
ghost use Rattle.std.specs.Float.{binary64};
ghost use Rattle.std.specs.Float.Ieee.{of_bits, to_bits};
ghost use Rattle.words.specs.Records.{all_of};
ghost use Rattle.words.specs.Inner.Placed.{placed};
ghost use Rattle.rules.specs.Calls.{written};
ghost use Rattle.points.specs.Step.{in_range};
ghost use Rattle.hosting.specs.Floats.{floats64, low_bytes, float_bytes};

use points::range;
use words::little;

// Floats of the most points: 4,096 on 8 axes.
pub const FLOAT_ROOM: usize = 32768;

// Whether all floats of the bytes are in range.
pub fn all_in_range(b: &[u8]) -> bool
    ensures { result ≡ all_of in_range (floats64 b.now) }
{
    for k in 0..b.len() / 8 {
        if !bits_in_range(little::word64(b, k * 8)) {
            return false;
        }
    }
    true
}

// Writes the floats of the bytes from the start of `out`.
pub fn decode(b: &[u8], out: &mut [f64])
    requires { (all_of in_range (floats64 b.now) ≡ true) × (length b.now / 8 ≤ length out.old) }
    ensures { out.new ≡ written (floats64 b.now) out.old }
{
    for k in 0..b.len() / 8 {
        out[k] = float_of(little::word64(b, k * 8));
    }
}

// Whether the float with these bits is finite, and of magnitude below 1,048,576.
pub fn bits_in_range(bits: u64) -> bool
    ensures { result ≡ in_range (of_bits binary64 bits) }
{
    let exponent = bits % 9223372036854775808 / 4503599627370496;
    if exponent == 2047 {
        return false;
    }
    range::in_range(f64::from_bits(bits))
}

// The float with these bits, one in range.
pub fn float_of(bits: u64) -> f64
    requires { in_range (of_bits binary64 bits) ≡ true }
    ensures { result ≡ of_bits binary64 bits }
{
    f64::from_bits(bits)
}

// Writes the 8 bytes of a float from `at`, the lowest first.
fn put_float(x: f64, out: &mut [u8], at: usize)
    requires { (in_range x ≡ true) × (at + 8 ≤ length out.old) }
    ensures { out.new ≡ placed at (low_bytes 8 (to_bits binary64 x)) out.old }
{
    out[at..at + 8].copy_from_slice(&x.to_le_bytes());
}

// Writes the bytes of the floats from the start of `out`.
pub fn encode(xs: &[f64], out: &mut [u8])
    requires { (all_of in_range xs.now ≡ true) × (length xs.now * 8 ≤ length out.old) }
    ensures { out.new ≡ written (float_bytes xs.now) out.old }
{
    for (k, x) in xs.iter().enumerate() {
        put_float(*x, out, k * 8);
    }
}
