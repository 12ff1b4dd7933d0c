// The step of a sweep, and whether it fits the space that it moves.
ghost use Rattle.std.specs.Prelude.{◌≡◌};
ghost use Rattle.points.specs.Step.{on_circle, step_fits};

// Cosine and sine of a turn of the first two axes, and its rise on the last axis.
#[derive(Clone, Copy)]
pub struct Turn {
    pub c: f64,
    pub s: f64,
    pub rise: f64,
}

// An axis counts from 0; an amount is added on the axis before it.
#[derive(Clone, Copy)]
pub enum Step {
    Slide(usize, f64),
    Slant(usize, f64, usize, f64),
    Turn(Turn),
}

impl Turn {
    // Whether c and s lie on the unit circle, within 2^-40.
    pub fn on_circle(self) -> bool
        ensures { result ≡ on_circle self }
    {
        let q = self.c * self.c + self.s * self.s;
        if q < 0.9999999999990905 {
            return false;
        }
        q <= 1.0000000000009095
    }
}

impl Step {
    // Whether the step is one of a space with n axes.
    pub fn fits(self, n: usize) -> bool
        ensures { result ≡ step_fits n self }
    {
        match self {
            Step::Slide(a, _) => a < n,
            Step::Slant(a, _, b, _) => (a != b) & ((a < n) & (b < n)),
            Step::Turn(t) => (3 <= n) & t.on_circle(),
        }
    }
}
