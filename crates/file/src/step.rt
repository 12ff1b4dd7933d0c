// The step of a file, and row 5 of the refusal table.
ghost use Rattle.std.specs.Prelude.{◌≡◌, true, not, ◌||◌, ◌≤◌, length};
ghost use Rattle.words.specs.Records.{all_of, tabulate};
ghost use Rattle.points.specs.Step.{in_range, step_fits};
ghost use Rattle.file.specs.File.{header_size, axes_of, amount_of, step_of, unused_set};

use crate::{floats, numbers};
use points::step::{Step, Turn};
use words::little;

// The step, whose floats are in range: the kind, a number in the format, becomes a case of the enum here.
pub fn step(b: &[u8]) -> Step
    requires { (header_size ≤ length b.now) × (all_of in_range (tabulate 3 (amount_of b.now)) ≡ true) }
    ensures { result ≡ step_of b.now }
{
    let kind = numbers::byte_at(b, 13);
    let axis = numbers::byte_at(b, 14);
    let first = floats::float_at(b, 16);
    if kind == 1 {
        return Step::Slide(axis, first);
    }
    let second = floats::float_at(b, 24);
    if kind == 2 {
        return Step::Slant(axis, first, numbers::byte_at(b, 15), second);
    }
    let turn = Turn {
        c: first,
        s: second,
        rise: floats::float_at(b, 32),
    };
    Step::Turn(turn)
}

// Whether a part of the header that this kind of step leaves unused is not zero. A float counts by its bits.
fn unused_set(b: &[u8]) -> bool
    requires { header_size ≤ length b.now }
    ensures { result ≡ unused_set b.now }
{
    let kind = numbers::byte_at(b, 13);
    if kind == 1 {
        return (numbers::byte_at(b, 15) != 0)
            | ((little::word64(b, 24) != 0) | (little::word64(b, 32) != 0));
    }
    if kind == 2 {
        return little::word64(b, 32) != 0;
    }
    (numbers::byte_at(b, 14) != 0) | (numbers::byte_at(b, 15) != 0)
}

// Row 5: a step that does not fit its space, or an unused part that is not zero.
pub fn step_unfit(b: &[u8]) -> bool
    requires { (header_size ≤ length b.now) × (all_of in_range (tabulate 3 (amount_of b.now)) ≡ true) }
    ensures { result ≡ (not (step_fits (axes_of b.now) (step_of b.now)) || unused_set b.now) }
{
    let n = numbers::axes(b);
    !step(b).fits(n) | unused_set(b)
}
