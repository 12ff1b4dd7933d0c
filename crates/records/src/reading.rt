// Words of a table, by record: its sign word, material, vertices and wings.
ghost use Rattle.std.specs.Prelude.{◌≡◌, ◌≤◌, ◌<◌, get_or};
ghost use Rattle.words.specs.Records.{part};
ghost use Rattle.records.specs.Layout.{record_size};
ghost use Rattle.records.specs.Inner.Inside.{Inside, sign_in, material_in, vertex_in, wing_in};

use crate::sizes::{MATERIAL, VERTICES, first_wing, record_size};

// Word j of record p.
fn word(d: usize, s: usize, table: &[u16], p: usize, j: usize) -> u16
    requires { Inside d s p table.now × (j < record_size d) }
    ensures { result ≡ get_or (part (record_size d) p table.now) j 0 }
{
    table[p * record_size(d) + j]
}

// The sign word of cell p.
pub fn sign(d: usize, s: usize, table: &[u16], p: usize) -> u16
    requires { Inside d s p table.now }
    ensures { result ≡ sign_in d table.now p }
{
    word(d, s, table, p, 0)
}

// The material of cell p.
pub fn material(d: usize, s: usize, table: &[u16], p: usize) -> u16
    requires { Inside d s p table.now }
    ensures { result ≡ material_in d table.now p }
{
    word(d, s, table, p, MATERIAL)
}

// Vertex k of cell p.
pub fn vertex(d: usize, s: usize, table: &[u16], p: usize, k: usize) -> u16
    requires { Inside d s p table.now × (k ≤ d) }
    ensures { result ≡ vertex_in d table.now p k }
{
    word(d, s, table, p, k + VERTICES)
}

// Wing a of cell p.
pub fn wing(d: usize, s: usize, table: &[u16], p: usize, a: usize) -> u16
    requires { Inside d s p table.now × (a ≤ d) }
    ensures { result ≡ wing_in d table.now p a }
{
    word(d, s, table, p, first_wing(d) + a)
}
