// The numbers of a sweep: whether they are within the limits, and how large it comes out.
ghost use Rattle.std.specs.Prelude.{◌≡◌, false, not, ◌&&◌, ◌||◌, suc, ◌≤◌, ltb};
ghost use Rattle.rules.specs.Limits.{max_source, max_vertices, max_cells, steps_ok, swept_vertices};
ghost use Rattle.rules.specs.Shapes.{shape_ok};
ghost use Rattle.records.specs.Layout.{table_length};
ghost use Rattle.prism.specs.Swept.{swept_cells};

use records::sizes::table_words;
use rules::limits::{Shape, steps_ok, swept_vertices};

pub fn in_limits(d: usize, v: usize, s: usize, h: usize) -> bool
    ensures { result ≡ (shape_ok max_source d v s && steps_ok h) }
{
    Shape::within(Shape::MAX_SOURCE, d, v, s) && steps_ok(h)
}

fn swept_cells(d: usize, s: usize, h: usize) -> usize
    requires { (d ≤ 6) × (s ≤ 4096) × (h ≤ 64) }
    ensures { result ≡ swept_cells d s h }
{
    h * (s * (d + 1))
}

// Swept vertices or cells over the limit.
pub(crate) fn too_large(d: usize, v: usize, s: usize, h: usize) -> bool
    requires { not (shape_ok max_source d v s && steps_ok h) ≡ false }
    ensures { result ≡ (ltb max_vertices (swept_vertices v h) || ltb max_cells (swept_cells d s h)) }
{
    Shape::MAX_VERTICES < swept_vertices(v, h) || Shape::MAX_CELLS < swept_cells(d, s, h)
}

// Words of the swept table.
pub(crate) fn swept_words(d: usize, s: usize, h: usize) -> usize
    requires { (d ≤ 6) × (s ≤ 4096) × (h ≤ 64) × (swept_cells d s h ≤ 4096) }
    ensures { result ≡ table_length (suc d) (swept_cells d s h) }
{
    table_words(d + 1, swept_cells(d, s, h))
}
