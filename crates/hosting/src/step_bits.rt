// A step told by numbers: its kind, two axes, and three floats by their bits.
ghost use Rattle.std.specs.Prelude.{◌≡◌, true, not, ◌||◌, [], ◌∷◌};
ghost use Rattle.std.specs.Float.{binary64};
ghost use Rattle.std.specs.Float.Ieee.{of_bits};
ghost use Rattle.words.specs.Records.{all_of};
ghost use Rattle.points.specs.Step.{in_range, step_fits, step_floats};
ghost use Rattle.hosting.specs.Moves.{told_step, any_set, unused_set};

use crate::floats::{bits_in_range, float_of};
use points::step::{Step, Turn};

// Kind 1 is a slide, 2 a slant, 3 a turn: a number, since the C interface tells it so. What a kind leaves unused is to be 0.
#[derive(Clone, Copy)]
pub struct StepBits {
    pub kind: usize,
    pub axis: usize,
    pub other: usize,
    pub a: u64,
    pub b: u64,
    pub c: u64,
}

fn floats_ok(a: u64, b: u64, c: u64) -> bool
    ensures { result ≡ all_of in_range (of_bits binary64 a ∷ of_bits binary64 b ∷ of_bits binary64 c ∷ []) }
{
    if !bits_in_range(a) {
        return false;
    }
    if !bits_in_range(b) {
        return false;
    }
    bits_in_range(c)
}

// Of the floats that the step holds; 0 is in range.
pub fn step_in_range(t: StepBits) -> bool
    ensures { result ≡ all_of in_range (step_floats (told_step t)) }
{
    if t.kind == 1 {
        return floats_ok(t.a, 0, 0);
    }
    if t.kind == 2 {
        return floats_ok(t.a, t.b, 0);
    }
    floats_ok(t.a, t.b, t.c)
}

pub fn step_of(t: StepBits) -> Step
    requires { all_of in_range (step_floats (told_step t)) ≡ true }
    ensures { result ≡ told_step t }
{
    if t.kind == 1 {
        return Step::Slide(t.axis, float_of(t.a));
    }
    if t.kind == 2 {
        return Step::Slant(t.axis, float_of(t.a), t.other, float_of(t.b));
    }
    let turn = Turn {
        c: float_of(t.a),
        s: float_of(t.b),
        rise: float_of(t.c),
    };
    Step::Turn(turn)
}

fn any_set(x: u64, y: u64, z: u64) -> bool
    ensures { result ≡ any_set x y z }
{
    if x != 0 {
        return true;
    }
    if y != 0 {
        return true;
    }
    z != 0
}

// Whether a part that this kind of step leaves unused is not zero.
fn unused_set(t: StepBits) -> bool
    ensures { result ≡ unused_set t }
{
    if t.kind == 1 {
        return any_set(t.other as u64, t.b, t.c);
    }
    if t.kind == 2 {
        return any_set(0, 0, t.c);
    }
    any_set(t.axis as u64, t.other as u64, 0)
}

// Row 5: a step that does not fit its space, or an unused part that is not zero.
pub fn step_unfit(n: usize, t: StepBits) -> bool
    requires { all_of in_range (step_floats (told_step t)) ≡ true }
    ensures { result ≡ (not (step_fits n (told_step t)) || unused_set t) }
{
    if step_of(t).fits(n) {
        return unused_set(t);
    }
    true
}
