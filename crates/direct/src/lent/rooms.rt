// Rooms for so many places, since memory is cleared before it is used.
ghost use Rattle.std.specs.Prelude.{min, suc, ◌≡◌, ◌*◌, ◌<◌, ◌≤◌};
ghost use Rattle.direct.specs.Inner.Direct.{Direct, Lent};

use crate::lent::in_arrays;
use records::sizes::EMPTY;

// For at most PLACES places, with HEADS buckets; no list has more than 40,960 words, and no table more than 73,728. Each size is kept apart, so
// that a call takes the stack of its own room alone.
#[inline(never)]
pub(crate) fn in_places<
    const PLACES: usize,
    const LIST: usize,
    const TABLE: usize,
    const HEADS: usize,
>(d: usize, v: usize, s: usize, cells: &[u8], table: &mut [u8], uploaded: &mut [u8]) -> bool
    requires lent { Lent d v s cells.now table.old uploaded.old × (s * suc d ≤ PLACES) }
    requires room { (LIST ≡ min (PLACES * 2) 40960) × (TABLE ≡ min (PLACES * 3) 73728) × (PLACES ≤ 32768) × (0 < HEADS) × (HEADS ≤ 65536) }
    ensures { Direct d v s cells.now table.old uploaded.old table.new uploaded.new result }
{
    let mut list = [0u16; LIST];
    let mut words = [0u16; TABLE];
    let mut hash = [0u32; PLACES];
    let mut head = [EMPTY; HEADS];
    let mut next = [0u16; PLACES];
    in_arrays(
        d, v, s, cells, &mut list, &mut words, &mut hash, &mut head, &mut next, table, uploaded,
    )
}
