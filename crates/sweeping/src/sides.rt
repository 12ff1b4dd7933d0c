// Side pairs: over face a of a cell of dimension d stand d sides, each a cell and a position.
ghost use Rattle.std.specs.Prelude.{◌≡◌, ◌<◌, ◌≤◌};
ghost use Rattle.rules.specs.Limits.{max_source};
ghost use Rattle.prism.specs.Sides.{side_pair};
ghost use Rattle.sweeping.specs.SidePairs.{declared_pair, has_side, side_pair_of};

use rules::limits::Shape;

#[derive(Drop)]
pub struct SidePair {
    pub cell: usize,
    pub position: usize,
}

// A side stands at place l over face a.
fn has_side(d: usize, a: usize, l: usize) -> bool
    ensures { result ≡ has_side d a l }
{
    (d <= Shape::MAX_SOURCE) & ((a <= d) & (l < d))
}

// The pair at place l over face a: while l is below a in cell l, afterwards in cell l + 1.
pub(crate) fn pair_at(d: usize, a: usize, l: usize) -> SidePair
    requires { (d ≤ max_source) × (a ≤ d) × (l < d) }
    ensures { result ≡ declared_pair (side_pair d a l) }
{
    if l < a {
        return SidePair {
            cell: l,
            position: a - l,
        };
    }
    let next = l + 1;
    SidePair {
        cell: next,
        position: d + a - l,
    }
}

// The same wherever it is asked, l counted from 0; cell 0 at position 0 where no side stands.
pub fn side_pair(d: usize, a: usize, l: usize) -> SidePair
    ensures { result ≡ side_pair_of d a l }
{
    if !has_side(d, a, l) {
        return SidePair {
            cell: 0,
            position: 0,
        };
    }
    pair_at(d, a, l)
}
