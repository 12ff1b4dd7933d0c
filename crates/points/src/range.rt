// Rule 4: floats are finite, and of magnitude below 1,048,576.
ghost use Rattle.std.specs.Prelude.{◌≡◌, ◌&&◌};
ghost use Rattle.words.specs.Records.{all_of};
ghost use Rattle.points.specs.Step.{in_range, step_floats};

use crate::step::Step;

pub fn in_range(x: f64) -> bool
    ensures { result ≡ in_range x }
{
    (-1048576.0 < x) & (x < 1048576.0)
}

pub fn all_in_range(xs: &[f64]) -> bool
    ensures { result ≡ all_of in_range xs.now }
{
    xs.iter().all(|x| in_range(*x))
}

// Of the numbers that the step holds.
fn step_in_range(step: Step) -> bool
    ensures { result ≡ all_of in_range (step_floats step) }
{
    match step {
        Step::Slide(_, x) => in_range(x),
        Step::Slant(_, x, _, y) => in_range(x) & in_range(y),
        Step::Turn(t) => in_range(t.c) & (in_range(t.s) & in_range(t.rise)),
    }
}

pub fn floats_in_range(step: Step, points: &[f64]) -> bool
    ensures { result ≡ (all_of in_range (step_floats step) && all_of in_range points.now) }
{
    step_in_range(step) & all_in_range(points)
}
