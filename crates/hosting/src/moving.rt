// The call move on bytes.
ghost use Rattle.std.specs.Prelude.{◌≡◌, true, ◌&&◌, ◌*◌, ◌/◌, ◌≤◌, length};
ghost use Rattle.words.specs.Records.{all_of};
ghost use Rattle.rules.specs.Calls.{after};
ghost use Rattle.rules.specs.Limits.{axes_ok, vertices_ok, steps_ok, within};
ghost use Rattle.rules.specs.Numbers.{outcome_of};
ghost use Rattle.points.specs.Step.{in_range, step_floats};
ghost use Rattle.motion.specs.Move.{move_input, moved_levels, move_outcome, move_buffer};
ghost use Rattle.hosting.specs.Floats.{floats64, float_bytes};
ghost use Rattle.hosting.specs.Moves.{told_step, move_told, host_move_outcome, host_move_buffer};
ghost use Rattle.hosting.specs.Inner.Rooms.{float_room, moved_room, in_room};

use crate::floats;
use crate::floats::FLOAT_ROOM;
use crate::step_bits::{StepBits, step_in_range, step_of, step_unfit};
use motion::move_points;
use points::step::Step;
use rules::limits::{Shape, axes_ok, steps_ok, swept_vertices, vertices_ok};
use rules::refusal::Refusal;

// Floats of the most points that can be moved: a step doubles them.
const MOVED_ROOM: usize = 16384;

// Row 2.
fn numbers_fit(n: usize, v: usize, h: usize, kind: usize) -> bool
    ensures { result ≡ ((axes_ok n && (vertices_ok v && steps_ok h)) && within 1 3 kind) }
{
    axes_ok(n) && vertices_ok(v) && steps_ok(h) && (1..=3).contains(&kind)
}

// Row 4.
fn floats_fit(t: StepBits, points: &[u8]) -> bool
    ensures { result ≡ (all_of in_range (step_floats (told_step t)) && all_of in_range (floats64 points.now)) }
{
    if !step_in_range(t) {
        return false;
    }
    floats::all_in_range(points)
}

// The levels of decoded points.
fn move_decoded(
    n: usize,
    v: usize,
    h: usize,
    step: Step,
    points: &[u8],
    out: &mut [f64],
) -> Result<usize, Refusal>
    requires { (length points.now ≤ moved_room * 8) × (all_of in_range (floats64 points.now) ≡ true) }
    ensures answer { outcome_of result ≡ move_outcome (move_input n v h step (floats64 points.now) (length out.old)) }
    ensures buffer { out.new
        ≡ move_buffer (move_input n v h step (floats64 points.now) (length out.old)) out.old }
{
    let count = points.len() / 8;
    let mut floats = [0.0f64; MOVED_ROOM];
    floats::decode(points, &mut floats);
    move_points(n, v, h, step, &floats[..count], out)
}

// The levels' bytes, if the lent ones are enough.
fn move_sent(
    n: usize,
    v: usize,
    h: usize,
    step: Step,
    points: &[u8],
    levels: &mut [u8],
) -> Result<usize, Refusal>
    requires { (length points.now ≤ moved_room * 8) × (all_of in_range (floats64 points.now) ≡ true) }
    ensures answer { outcome_of result
        ≡ in_room (length levels.old / 8) (move_outcome (move_input n v h step (floats64 points.now) float_room)) }
    ensures buffer { levels.new
        ≡ after (outcome_of result) (float_bytes (moved_levels (move_input n v h step (floats64 points.now) float_room))) levels.old }
{
    let mut out = [0.0f64; FLOAT_ROOM];
    let m = move_decoded(n, v, h, step, points, &mut out)?;
    if levels.len() / 8 < m {
        return Err(Refusal::NoRoom);
    }
    floats::encode(&out[..m], levels);
    Ok(m)
}

pub fn move_bytes(
    n: usize,
    v: usize,
    h: usize,
    t: StepBits,
    points: &[u8],
    levels: &mut [u8],
) -> Result<usize, Refusal>
    ensures answer { outcome_of result ≡ host_move_outcome (move_told n v h t points.now (length levels.old / 8)) }
    ensures buffer { levels.new
        ≡ host_move_buffer (move_told n v h t points.now (length levels.old / 8)) levels.old }
{
    if !numbers_fit(n, v, h, t.kind) {
        return Err(Refusal::OutsideLimits);
    }
    if points.len() != v * n * 8 {
        return Err(Refusal::WrongLength);
    }
    if !floats_fit(t, points) {
        return Err(Refusal::FloatRange);
    }
    if step_unfit(n, t) {
        return Err(Refusal::StepUnfit);
    }
    if swept_vertices(v, h) > Shape::MAX_VERTICES {
        return Err(Refusal::SweptTooLarge);
    }
    move_sent(n, v, h, step_of(t), points, levels)
}
