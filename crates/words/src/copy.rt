// 16-bit numbers from bytes, and back, between lent slices.
ghost use Rattle.std.specs.Prelude.{◌≡◌, ◌++◌, ◌+◌, ◌*◌, ◌/◌, ◌≤◌, length, drop};
ghost use Rattle.words.specs.Inner.Placed.{placed};
ghost use Rattle.words.specs.Bytes.{words_from, words16, bytes_of};

use crate::little;

// Writes the m numbers from `at` of the bytes to the places from `to`.
pub fn copy16(b: &[u8], at: usize, m: usize, out: &mut [u16], to: usize)
    requires { (at + m * 2 ≤ length b.now) × (to + m ≤ length out.old) }
    ensures { out.new ≡ placed to (words_from b.now at m) out.old }
{
    for k in 0..m {
        out[to + k] = little::word16(b, at + k * 2);
    }
}

// Writes the bytes' numbers from the start of `out`; a last odd byte is left out.
pub fn decode(b: &[u8], out: &mut [u16])
    requires { length b.now / 2 ≤ length out.old }
    ensures { out.new ≡ words16 b.now ++ drop (length b.now / 2) out.old }
{
    copy16(b, 0, b.len() / 2, out, 0);
}

// Writes the numbers' bytes from the start of `out`.
pub fn encode(words: &[u16], out: &mut [u8])
    requires { length words.now * 2 ≤ length out.old }
    ensures { out.new ≡ bytes_of words.now ++ drop (length words.now * 2) out.old }
{
    for (p, word) in words.iter().enumerate() {
        let [low, high] = word.to_le_bytes();
        out[p * 2] = low;
        out[p * 2 + 1] = high;
    }
}
