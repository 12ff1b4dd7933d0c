// A number at a place of a byte slice, the lowest byte first.
ghost use Rattle.std.specs.Prelude.{◌≡◌, ◌+◌, ◌<◌, ◌≤◌, length};
ghost use Rattle.words.specs.Bytes as B;

// The 16-bit number whose bytes stand at `at` and `at + 1`.
pub fn word16(b: &[u8], at: usize) -> u16
    requires { at + 2 ≤ length b.now }
    ensures { result ≡ B.word16 b.now at }
{
    u16::from_le_bytes([b[at], b[at + 1]])
}

// The number of the 8 bytes from `at`.
pub fn word64(b: &[u8], at: usize) -> u64
    requires { at + 8 ≤ length b.now }
    ensures { result ≡ B.word64 b.now at }
{
    u64::from_le_bytes([
        b[at],
        b[at + 1],
        b[at + 2],
        b[at + 3],
        b[at + 4],
        b[at + 5],
        b[at + 6],
        b[at + 7],
    ])
}
