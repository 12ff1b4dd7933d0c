// The point mover, and copies of points.
ghost use Rattle.std.specs.Prelude.{◌≡◌, true, ◌++◌, ◌≤◌, ◌<◌, length, take, drop};
ghost use Rattle.points.specs.Step.{step_fits, add_at, turned, moved_point};

use crate::step::{Step, Turn};

// x added on axis a.
fn add_at(a: usize, x: f64, p: &mut [f64])
    requires { a < length p.old }
    ensures { p.new ≡ add_at a x p.old }
{
    p[a] += x;
}

// The first two axes turned: both are read before either is set.
pub fn turn(t: Turn, p: &mut [f64])
    requires { 2 ≤ length p.old }
    ensures { p.new ≡ turned t p.old }
{
    let x = p[0];
    let y = p[1];
    let first = x * t.c - y * t.s;
    let second = x * t.s + y * t.c;
    p[0] = first;
    p[1] = second;
}

// The point, of n axes, after the step. Other axes stay as they are.
pub(crate) fn move_point(step: Step, n: usize, p: &mut [f64])
    requires { (length p.old ≡ n) × (step_fits n step ≡ true) }
    ensures { p.new ≡ moved_point step n p.old }
{
    match step {
        Step::Slide(a, x) => add_at(a, x, p),
        Step::Slant(a, x, b, y) => {
            add_at(a, x, p);
            add_at(b, y, p);
        }
        Step::Turn(t) => {
            let last = n - 1;
            turn(t, p);
            add_at(last, t.rise, p);
        }
    }
}

// Writes xs from the start of out. It is a loop, since the compiler makes the library's copy ask a host for memmove.
pub(crate) fn put(xs: &[f64], out: &mut [f64])
    requires { length xs.now ≤ length out.old }
    ensures { out.new ≡ xs.now ++ drop (length xs.now) out.old }
{
    for i in 0..xs.len() {
        out[i] = xs[i];
    }
}

// A row of eight floats that begins with xs.
pub(crate) fn load(xs: &[f64]) -> [f64; 8]
    requires { length xs.now ≤ 8 }
    ensures { take (length xs.now) result ≡ xs.now }
{
    let mut p = [0.0; 8];
    put(xs, &mut p);
    p
}
