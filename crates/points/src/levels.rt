// Levels 0 to h of the points: whether they stay in range, and the writer.
ghost use Rattle.std.specs.Prelude.{◌≡◌, true, ◌+◌, ◌*◌, ◌≤◌, length, take, drop};
ghost use Rattle.words.specs.Inner.Placed.{placed};
ghost use Rattle.rules.specs.Limits.{swept_vertices};
ghost use Rattle.rules.specs.Calls.{written};
ghost use Rattle.points.specs.Step.{step_fits};
ghost use Rattle.points.specs.Levels.{moved_all, levels};
ghost use Rattle.points.specs.Inner.Stay.{stays_in, all_stay};

use crate::step::Step;

// Whether the point stays in range in h steps.
fn stays(step: Step, n: usize, h: usize, p: [f64; 8]) -> bool
    requires { (n ≤ 8) × (step_fits n step ≡ true) }
    ensures { result ≡ stays_in step n h (take n p) }
{
    let mut q = p;
    for _ in 0..h {
        crate::point::move_point(step, n, &mut q[..n]);
        if !crate::range::all_in_range(&q[..n]) {
            return false;
        }
    }
    true
}

// Whether all v points do.
pub fn all_stay(step: Step, n: usize, v: usize, h: usize, points: &[f64]) -> bool
    requires n_bound { (n ≤ 8) × (step_fits n step ≡ true) }
    requires points_len { length points.now ≡ v * n }
    ensures { result ≡ all_stay step n v h points.now }
{
    for k in 0..v {
        let a = k * n;
        let p = crate::point::load(&points[a..a + n]);
        if !stays(step, n, h, p) {
            return false;
        }
    }
    true
}

// Moves the v points of out from at on by one step.
fn move_level(step: Step, n: usize, v: usize, at: usize, out: &mut [f64])
    requires step_value { step_fits n step ≡ true }
    requires n_in_bounds { at + v * n ≤ length out.old }
    ensures { out.new ≡ placed at (moved_all step n v (take (v * n) (drop at out.old))) out.old }
{
    for k in 0..v {
        let a = at + k * n;
        crate::point::move_point(step, n, &mut out[a..a + n]);
    }
}

// Writes at to the v points of the level that starts at from, moved by one step.
fn write_level(step: Step, n: usize, v: usize, from: usize, to: usize, out: &mut [f64])
    requires step_value { step_fits n step ≡ true }
    requires n_bound { (from + v * n ≤ to) × (to + v * n ≤ length out.old) }
    ensures { out.new ≡ placed to (moved_all step n v (take (v * n) (drop from out.old))) out.old }
{
    out.copy_within(from..from + v * n, to);
    move_level(step, n, v, to, out);
}

// Writes levels 0 to h from the start of out, each from the one before.
pub fn write_levels(step: Step, n: usize, v: usize, h: usize, points: &[f64], out: &mut [f64])
    requires step_value { step_fits n step ≡ true }
    requires points_len { (length points.now ≡ v * n) × (swept_vertices v h * n ≤ length out.old) }
    ensures { out.new ≡ written (levels step n v h points.now) out.old }
{
    let w = v * n;
    crate::point::put(points, out);
    for i in 0..h {
        write_level(step, n, v, i * w, (i + 1) * w, out);
    }
}
