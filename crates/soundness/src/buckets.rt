// Keys put into buckets of their hashes, where no key before them has the hash.
ghost use Rattle.std.specs.Prelude.{◌≡◌, ℕ, ◌+◌, ◌≤◌, ◌<◌, length, get_or};
ghost use Rattle.soundness.specs.Inner.Hashing.{bucket_in, Chain, Chains};

use records::sizes::EMPTY;

// The bucket of a hash, of n.
fn bucket(h: u32, n: usize) -> usize
    requires { (0 < n) × (n ≤ 65536) }
    ensures { (result ≡ bucket_in n h) × (result < n) }
{
    (u64::from(h) * n as u64 / 4294967296) as usize
}

// A key before g with its hash, 65535 where there is none, or g where more than so many are to be looked at. The last in its bucket is `first`.
// The bound is no constant, or the compiler would write the loop out, and then not put it into its callers.
fn find(hash: &[u32], next: &[u16], buckets: usize, g: usize, first: u16, most: usize) -> usize
    requires { Chain buckets hash.now next.now g first × (g < 32768) × (g < length hash.now) × (g < length next.now) }
    ensures none { result ≡ 65535 → (j : ℕ) → j < g → get_or hash.now j 0 ≡ get_or hash.now g 0 → ⊥ }
    ensures found { result < g → get_or hash.now result 0 ≡ get_or hash.now g 0 }
{
    let mut f = first;
    for _ in 0..most {
        if f == EMPTY {
            return 65535;
        }
        let j = usize::from(f);
        if hash[j] == hash[g] {
            return j;
        }
        f = next[j];
    }
    if f == EMPTY { 65535 } else { g }
}

// A key before g with its hash: 65535 where there is none, and then key g is put into its bucket; g where more than so many are to be looked at.
pub fn put(hash: &[u32], head: &mut [u16], next: &mut [u16], g: usize, most: usize) -> usize
    requires { Chains hash.now head.old next.old g × (g < 32768) × (g < length hash.now) × (g < length next.old) }
    ensures chains { (g ≤ result → result ≡ 65535) → Chains hash.now head.new next.new (g + 1) }
    ensures none { result ≡ 65535 → (j : ℕ) → j < g → get_or hash.now j 0 ≡ get_or hash.now g 0 → ⊥ }
    ensures long { (length head.new ≡ length head.old) × (length next.new ≡ length next.old) }
{
    let n = head.len();
    let b = bucket(hash[g], n);
    let first = head[b];
    let f = find(hash, next, n, g, first, most);
    if f == 65535 {
        next[g] = first;
        head[b] = g as u16;
        return 65535;
    }
    f
}
