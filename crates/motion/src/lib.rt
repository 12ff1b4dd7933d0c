// The call move, under a name that is no keyword: levels 0 to h of the lent points, refused or written.
#![tactic(auto)]

ghost use Rattle.std.specs.Prelude.{◌≡◌, false, not, ◌&&◌, ◌*◌, ◌≤◌, eqb, length};
ghost use Rattle.words.specs.Records.{all_of};
ghost use Rattle.points.specs.Step.{in_range, step_fits, step_floats};
ghost use Rattle.points.specs.Levels.{levels};
ghost use Rattle.rules.specs.Limits.{axes_ok, vertices_ok, steps_ok};
ghost use Rattle.rules.specs.Numbers.{outcome_of};
ghost use Rattle.motion.specs.Move.{move_input, move_outcome, move_buffer};

use points::carrying::carries;
use points::levels::{all_stay, write_levels};
use points::range::floats_in_range;
use points::step::Step;
use rules::limits::{Shape, axes_ok, steps_ok, swept_vertices, vertices_ok};
use rules::refusal::Refusal;

// Row 2: whether the numbers are within their limits.
fn numbers_ok(n: usize, v: usize, h: usize) -> bool
    ensures { result ≡ (axes_ok n && (vertices_ok v && steps_ok h)) }
{
    axes_ok(n) && vertices_ok(v) && steps_ok(h)
}

// Row 13: whether the levels stay in range.
fn levels_stay(step: Step, n: usize, v: usize, h: usize, points: &[f64]) -> bool
    requires n_bound { (n ≤ 8) × (not (eqb (length points.now) (v * n)) ≡ false) × (not (step_fits n step) ≡ false) }
    requires points_value { not (all_of in_range (step_floats step) && all_of in_range points.now) ≡ false }
    ensures { result ≡ all_of in_range (levels step n v h points.now) }
{
    all_stay(step, n, v, h, points)
}

// The count of floats written.
pub fn move_points(
    n: usize,
    v: usize,
    h: usize,
    step: Step,
    points: &[f64],
    out: &mut [f64],
) -> Result<usize, Refusal>
    ensures answer { outcome_of result ≡ move_outcome (move_input n v h step points.now (length out.old)) }
    ensures buffer { out.new
        ≡ move_buffer (move_input n v h step points.now (length out.old)) out.old }
{
    if !numbers_ok(n, v, h) {
        return Err(Refusal::OutsideLimits);
    }
    if points.len() != v * n {
        return Err(Refusal::WrongLength);
    }
    if !floats_in_range(step, points) {
        return Err(Refusal::FloatRange);
    }
    if !step.fits(n) {
        return Err(Refusal::StepUnfit);
    }
    let swept = swept_vertices(v, h);
    if Shape::MAX_VERTICES < swept {
        return Err(Refusal::SweptTooLarge);
    }
    if !levels_stay(step, n, v, h, points) {
        return Err(Refusal::MovedOutOfRange);
    }
    if !carries(step, n, v, h, points) {
        return Err(Refusal::StaysInPlane);
    }
    let count = swept * n;
    if out.len() < count {
        return Err(Refusal::NoRoom);
    }
    write_levels(step, n, v, h, points, out);
    Ok(count)
}
