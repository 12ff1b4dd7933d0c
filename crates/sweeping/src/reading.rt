// Words of a solid's table, as the sweep names them: d is its dimension, s its cell count.
ghost use Rattle.std.specs.Prelude.{◌≡◌, ◌≤◌};
ghost use Rattle.records.specs.Inner.Inside.{Inside};
ghost use Rattle.sweeping.specs.Inner.SweptWords.{solid_wing, solid_vertex};

use records::reading;

// Vertex k of cell p.
pub fn vertex(d: usize, s: usize, table: &[u16], p: usize, k: usize) -> u16
    requires { Inside d s p table.now × (k ≤ d) }
    ensures { result ≡ solid_vertex d s table.now p k }
{
    reading::vertex(d, s, table, p, k)
}

// Wing a of cell p.
pub fn wing(d: usize, s: usize, table: &[u16], p: usize, a: usize) -> u16
    requires { Inside d s p table.now × (a ≤ d) }
    ensures { result ≡ solid_wing d s table.now p a }
{
    reading::wing(d, s, table, p, a)
}
