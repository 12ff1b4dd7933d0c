// Rooms for a table and its sweep by the words of the sweep, since memory is cleared before it is used.
ghost use Rattle.std.specs.Prelude.{◌≡◌, ◌≤◌};
ghost use Rattle.winged.specs.Host.{host_sweep, host_sweep_buffer};
ghost use Rattle.winged.specs.Inner.Sent.{SweepRoom, table_room};

use crate::host::sweep_bytes;

// For a table of at most so many words, whose sweep has at most so many; with a stack of its own for the room.
#[inline(never)]
pub(crate) fn in_room<const TABLE: usize, const SWEPT: usize>(
    d: usize,
    v: usize,
    s: usize,
    h: usize,
    table: &[u8],
    swept: &mut [u8],
) -> i64
    requires { SweepRoom d s h table.now TABLE SWEPT × (TABLE ≤ table_room) × (SWEPT ≤ table_room) }
    ensures answer { result ≡ host_sweep d v s h table.now swept.old }
    ensures buffer { swept.new ≡ host_sweep_buffer d v s h table.now swept.old }
{
    let mut solid = [0u16; TABLE];
    let mut words = [0u16; SWEPT];
    sweep_bytes(d, v, s, h, table, &mut solid, &mut words, swept)
}
