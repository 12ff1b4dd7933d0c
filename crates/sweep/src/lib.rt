// The sweep: from a solid's table to the table of its sweep in h steps.
#![tactic(auto)]

ghost use Rattle.std.specs.Prelude.{◌≡◌, length};
ghost use Rattle.rules.specs.Numbers.{outcome_of};
ghost use Rattle.sweep.specs.Sweep.{sweep_outcome, sweep_buffer, sweep_input};

use crate::limits::{in_limits, swept_words, too_large};
use records::sizes::table_words;
use rules::refusal::Refusal;
use soundness::is_sound;
use sweeping::writing::write_swept;

pub mod limits;

// Writes the swept table from the start of out and answers the count of its words, or says why not.
pub fn sweep(
    d: usize,
    v: usize,
    s: usize,
    h: usize,
    table: &[u16],
    out: &mut [u16],
) -> Result<usize, Refusal>
    ensures answer { outcome_of result ≡ sweep_outcome (sweep_input d v s h table.now (length out.old)) }
    ensures buffer { out.new ≡ sweep_buffer (sweep_input d v s h table.now (length out.old)) out.old }
{
    if !in_limits(d, v, s, h) {
        return Err(Refusal::OutsideLimits);
    }
    if table.len() != table_words(d, s) {
        return Err(Refusal::WrongLength);
    }
    if too_large(d, v, s, h) {
        return Err(Refusal::SweptTooLarge);
    }
    if !is_sound(d, v, s, table) {
        return Err(Refusal::Unsound);
    }
    if out.len() < swept_words(d, s, h) {
        return Err(Refusal::NoRoom);
    }
    Ok(write_swept(d, v, s, h, table, out))
}
