// Places as numbers: the key of position a of cell p is p (d + 1) + a.
ghost use Rattle.std.specs.Prelude.{◌≡◌, suc, ◌+◌, ◌*◌, ◌≤◌, ◌<◌};
ghost use Rattle.rules.specs.Limits.{max_dimension, max_cells};

pub fn key(d: usize, s: usize, p: usize, a: usize) -> usize
    requires { (d ≤ max_dimension) × (s ≤ max_cells) × (p < s) × (a ≤ d) }
    ensures { (result ≡ p * suc d + a) × (result < s * suc d) × (s * suc d ≤ 32768) }
{
    p * (d + 1) + a
}
