// Row 17: whether an axis carries the step. A step only adds on such an axis, and equal values have equal sums:
// the lent points are looked at once, and of one of them the sums.
ghost use Rattle.std.specs.Prelude.{◌≡◌, true, ◌*◌, ◌<◌, ◌≤◌, length};
ghost use Rattle.points.specs.Step.{step_fits};
ghost use Rattle.points.specs.Levels.{levels};
ghost use Rattle.points.specs.Carrying.{flat, carries};
ghost use Rattle.points.specs.Inner.Sums.{column, climbs, axis_carries};

use crate::step::Step;

// Whether all v points have one value on axis a.
fn flat(n: usize, v: usize, a: usize, points: &[f64]) -> bool
    requires { (n ≤ 8) × (a < n) × (0 < v) × (length points.now ≡ v * n) }
    ensures { result ≡ flat (column n v a points.now) }
{
    let x = points[a];
    for k in 0..v {
        if !(x == points[k * n + a]) {
            return false;
        }
    }
    true
}

// Whether x rises each time that the amount is added, h times in all, or falls each time.
fn climbs(x: f64, amount: f64, h: usize) -> bool
    ensures { result ≡ climbs amount h x }
{
    let mut y = x;
    let mut rising = true;
    let mut falling = true;
    for _ in 0..h {
        let z = y + amount;
        rising &= y < z;
        falling &= z < y;
        y = z;
    }
    rising | falling
}

// Whether axis a carries a step that adds the amount to it.
fn axis_carries(n: usize, v: usize, h: usize, a: usize, amount: f64, points: &[f64]) -> bool
    requires { (n ≤ 8) × (a < n) × (0 < v) × (length points.now ≡ v * n) }
    ensures { result ≡ axis_carries n v h a amount points.now }
{
    if !flat(n, v, a, points) {
        return false;
    }
    climbs(points[a], amount, h)
}

// Whether one of the step's axes does; without vertices nothing is asked.
pub fn carries(step: Step, n: usize, v: usize, h: usize, points: &[f64]) -> bool
    requires { (n ≤ 8) × (step_fits n step ≡ true) × (length points.now ≡ v * n) }
    ensures { result ≡ carries step n v h (levels step n v h points.now) }
{
    if v == 0 {
        return true;
    }
    match step {
        Step::Slide(a, x) => axis_carries(n, v, h, a, x, points),
        Step::Slant(a, x, b, y) => axis_carries(n, v, h, a, x, points)
            | axis_carries(n, v, h, b, y, points),
        Step::Turn(t) => axis_carries(n, v, h, n - 1, t.rise, points),
    }
}
