// Keys classed by their rows. They have one class at first; digit by digit of their words each class is parted, in as
// many steps as there are keys, whatever the words are. At last the keys of a class have the same row.
ghost use Rattle.std.specs.Prelude.{true, ◌≡◌, ℕ, ◌+◌, ◌*◌, ◌/◌, ◌<◌, ◌≤◌, length, get_or};
ghost use Rattle.matching.specs.Inner.Links.{last_of, Linked};
ghost use Rattle.matching.specs.Inner.Matching.{Keyed, key_row, Answered, Behind};
ghost use Rattle.matching.specs.Inner.Classes.{key_digit, Worded, class_at, Named, Parted, tag, Seen, Visited, Classed};

use crate::{Keys, kept, place_of, stands};

// Links each of n keys to the last earlier key of its class. On the way the last key of a class keeps the link of the
// next of its keys.
fn link(n: usize, class: &[u16; 32768], prev: &mut [u16; 32768])
    requires { (n ≤ 32768) × Named n class.now × (length prev.old ≡ 32768) }
    ensures linked { Linked (class_at class.now) prev.new n × (length prev.new ≡ 32768) }
    ensures behind { Behind n prev.new prev.old }
{
    prev[..n].fill(65535);
    for g in 0..n {
        let c = usize::from(class[g]);
        let f = prev[c];
        prev[c] = g as u16;
        prev[g] = f;
    }
}

// Key g of class c goes to the part of the class that has its digit x. What seen has from class c is tagged.
fn visit(c: usize, g: usize, x: usize, class: &mut [u16; 32768], seen: &mut [u32; 4096])
    requires c_bound { (c < 32768) × (g < 32768) × (x < 4096) }
    requires x_bound { tag c ≤ get_or seen.old x 0 → get_or seen.old x 0 < tag c + 32768 }
    ensures { Visited c g x class.old seen.old class.new seen.new }
{
    let marked = (c as u32 + 1) * 65536;
    let v = seen[x];
    if v < marked {
        class[g] = g as u16;
        seen[x] = marked + g as u32;
        return;
    }
    class[g] = (v - marked) as u16;
}

impl Keys {
    // Word j of the row of key g.
    fn word(self, j: usize, rows: &[u16; 32768], g: usize) -> usize
        requires { Worded rows.now self.k self.w self.first self.part j × (g < 4096 * self.w) }
        ensures { (result ≡ get_or (key_row rows.now self.k self.w self.first g) j 0) × (result < 65536) }
    {
        let here = place_of(g, self.w, self.part);
        let p = here.cell;
        let i = stands(self.first + here.at, j);
        usize::from(rows[p * 8 + i])
    }

    // Digit j of the row of key g.
    fn digit(self, j: usize, rows: &[u16; 32768], g: usize) -> usize
        requires { Worded rows.now self.k self.w self.first self.part (j / 2) × (g < 4096 * self.w) }
        ensures { (result ≡ key_digit rows.now self.k self.w self.first j g) × (result < 4096) }
    {
        let x = self.word(j / 2, rows, g);
        if j % 2 == 0 { x / 4096 } else { x % 4096 }
    }

    // Whether digit j of each of n keys is 0, as the upper ones are where vertices are below 4096.
    fn flat(self, n: usize, j: usize, rows: &[u16; 32768]) -> bool
        requires { Worded rows.now self.k self.w self.first self.part (j / 2) × (n ≤ 4096 * self.w) }
        ensures { result ≡ true → (g : ℕ) → g < n → key_digit rows.now self.k self.w self.first j g ≡ 0 }
    {
        for g in 0..n {
            if self.digit(j, rows, g) != 0 {
                return false;
            }
        }
        true
    }

    // Parts class c.
    fn part_class(
        self,
        n: usize,
        j: usize,
        rows: &[u16; 32768],
        prev: &[u16; 32768],
        c: usize,
        class: &mut [u16; 32768],
        seen: &mut [u32; 4096],
    )
        requires worded { Worded rows.now self.k self.w self.first self.part (j / 2) × (n ≤ 4096 * self.w)
            × (c < n) × (c ≡ last_of (class_at class.old) c n) }
        requires by_index { (f : ℕ) → f < n → get_or class.old f 0 ≡ c → get_or prev.now f 0 ≡ last_of (class_at class.old) c f }
        requires class_len { (length class.old ≡ 32768) × Seen seen.old c }
        ensures parted { Parted (λ b. b ≡ c) n class.old (key_digit rows.now self.k self.w self.first j) class.new }
        ensures seen { Seen seen.new (c + 1) }
    {
        let mut f = c as u16;
        while f != 65535 {
            let g = usize::from(f);
            let x = self.digit(j, rows, g);
            visit(c, g, x, class, seen);
            f = prev[g];
        }
    }

    // Parts every class by digit j.
    fn refine(
        self,
        n: usize,
        j: usize,
        rows: &[u16; 32768],
        prev: &[u16; 32768],
        class: &mut [u16; 32768],
    )
        requires worded { Worded rows.now self.k self.w self.first self.part (j / 2) × (n ≤ 4096 * self.w)
            × Named n class.old × (length class.old ≡ 32768) }
        requires linked { Linked (class_at class.old) prev.now n }
        ensures { Parted (λ b. b < n) n class.old (key_digit rows.now self.k self.w self.first j) class.new }
    {
        let mut seen = [0u32; 4096];
        for c in 0..n {
            if usize::from(class[c]) == c {
                self.part_class(n, j, rows, prev, c, class, &mut seen);
            }
        }
    }

    // One digit more.
    fn pass(
        self,
        n: usize,
        j: usize,
        rows: &[u16; 32768],
        class: &mut [u16; 32768],
        prev: &mut [u16; 32768],
    )
        requires worded { Worded rows.now self.k self.w self.first self.part (j / 2) × (n ≤ 4096 * self.w) × (length prev.old ≡ 32768) }
        requires classed { Classed n (key_digit rows.now self.k self.w self.first) class.old j }
        ensures classed_2 { Classed n (key_digit rows.now self.k self.w self.first) class.new (j + 1) }
        ensures prev_len { (length prev.new ≡ 32768) × Behind n prev.new prev.old }
    {
        if self.flat(n, j, rows) {
            return;
        }
        link(n, class, prev);
        self.refine(n, j, rows, prev, class);
    }
}

// For each of n keys the last earlier key with the same row, or 65535; what stands behind the keys stays. Whatever class
// has is lost.
pub fn by_classes(
    n: usize,
    k: usize,
    w: usize,
    first: usize,
    part: usize,
    rows: &[u16; 32768],
    class: &mut [u16; 32768],
    prev: &mut [u16; 32768],
)
    requires keyed { Keyed rows.now k w first × (n ≤ 4096 * w) × (part ≡ 1048576 / w + 1) }
    requires class_len { (length class.old ≡ 32768) × (length prev.old ≡ 32768) }
    ensures answered { Answered rows.now k w first n prev.new prev.old }
    ensures class_len_2 { length class.new ≡ 32768 }
{
    if n == 0 {
        return;
    }
    let keys = Keys { k, w, first, part };
    let m = kept(k, first) * 2;
    class[..n].fill((n - 1) as u16);
    for j in 0..m {
        keys.pass(n, j, rows, class, prev);
    }
    link(n, class, prev);
}
