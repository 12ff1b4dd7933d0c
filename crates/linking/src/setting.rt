// A wing put into a table.
ghost use Rattle.std.specs.Prelude.{◌≡◌, ℕ, ◌≤◌, ◌<◌};
ghost use Rattle.records.specs.Inner.Inside.{Inside, wing_in};
ghost use Rattle.linking.specs.Inner.Linking.{SameCells};

use records::sizes::{first_wing, record_size};

// Wing a of cell p.
pub fn set_wing(d: usize, s: usize, table: &mut [u16], p: usize, a: usize, x: u16)
    requires { Inside d s p table.old × (a ≤ d) × (s ≤ 4096) }
    ensures cells { SameCells d s table.old table.new }
    ensures here { wing_in d table.new p a ≡ x }
    ensures others { (q b : ℕ) → q < s → b ≤ d → (q ≡ p → b ≡ a → ⊥) →
        wing_in d table.new q b ≡ wing_in d table.old q b }
{
    table[p * record_size(d) + (first_wing(d) + a)] = x;
}
