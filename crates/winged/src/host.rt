// The calls from bytes to bytes, by way of lent arrays of words.
mod rooms;

ghost use Rattle.std.specs.Prelude.{◌≡◌, true, suc, ◌*◌, ◌≤◌, length};
ghost use Rattle.rules.specs.Limits.{max_cells, max_source};
ghost use Rattle.words.specs.Bytes.{words16};
ghost use Rattle.rules.specs.Numbers.{outcome_of};
ghost use Rattle.rules.specs.Calls.{after};
ghost use Rattle.records.specs.Layout.{table_length};
ghost use Rattle.prism.specs.Swept.{swept_cells};
ghost use Rattle.sweep.specs.Sweep.{swept_words, sweep_input};
ghost use Rattle.winged.specs.Host.{host_wing, host_wing_buffer, host_uploaded_buffer, host_sweep, host_sweep_buffer};
ghost use Rattle.winged.specs.Inner.Sent.{small_table, sweep_read, table_room, SweepRoom};

use crate::host::rooms::in_room;
use crate::reading::wing_words;
use crate::sending::{answered, is_small, room, send};
use records::sizes::{SOLID_ROOM, TABLE_ROOM, table_words};
use rules::limits::Shape;
use rules::refusal::Refusal;
use sweep::limits::in_limits;
use sweep::sweep;
use words::copy::decode;

fn wing_bytes(
    d: usize,
    v: usize,
    s: usize,
    cells: &[u8],
    words: &mut [u16],
    table: &mut [u8],
    uploaded: &mut [u8],
) -> i64
    requires { small_table d s (length words.old) ≡ true }
    ensures answer { result ≡ host_wing d v s cells.now table.old uploaded.old }
    ensures buffer { table.new ≡ host_wing_buffer d v s cells.now table.old uploaded.old }
    ensures uploaded { uploaded.new
        ≡ host_uploaded_buffer d v s cells.now table.old uploaded.old }
{
    let m = room(table.len(), words.len());
    let a = wing_words(d, v, s, cells, &mut words[..m], uploaded);
    send(a, &words[..m], table)
}

// The same, with an array of its own for the table.
fn wing_in<const WORDS: usize>(
    d: usize,
    v: usize,
    s: usize,
    cells: &[u8],
    table: &mut [u8],
    uploaded: &mut [u8],
) -> i64
    requires { (small_table d s WORDS ≡ true) × (WORDS ≤ table_room) }
    ensures answer { result ≡ host_wing d v s cells.now table.old uploaded.old }
    ensures buffer { table.new ≡ host_wing_buffer d v s cells.now table.old uploaded.old }
    ensures uploaded { uploaded.new
        ≡ host_uploaded_buffer d v s cells.now table.old uploaded.old }
{
    let mut words = [0u16; WORDS];
    wing_bytes(d, v, s, cells, &mut words, table, uploaded)
}

// The array by the table's size. The small ones take little of the stack beside the largest.
pub(crate) fn wing_told(
    d: usize,
    v: usize,
    s: usize,
    cells: &[u8],
    table: &mut [u8],
    uploaded: &mut [u8],
) -> i64
    ensures answer { result ≡ host_wing d v s cells.now table.old uploaded.old }
    ensures buffer { table.new ≡ host_wing_buffer d v s cells.now table.old uploaded.old }
    ensures uploaded { uploaded.new
        ≡ host_uploaded_buffer d v s cells.now table.old uploaded.old }
{
    if is_small(d, s, 256) {
        return wing_in::<256>(d, v, s, cells, table, uploaded);
    }
    if is_small(d, s, 512) {
        return wing_in::<512>(d, v, s, cells, table, uploaded);
    }
    if is_small(d, s, 1024) {
        return wing_in::<1024>(d, v, s, cells, table, uploaded);
    }
    wing_in::<TABLE_ROOM>(d, v, s, cells, table, uploaded)
}

// sweep on a table of the right length, decoded into an array.
fn sweep_decoded(
    d: usize,
    v: usize,
    s: usize,
    h: usize,
    table: &[u8],
    solid: &mut [u16],
    out: &mut [u16],
) -> Result<usize, Refusal>
    requires { (length table.now ≡ table_length d s * 2) × (table_length d s ≤ length solid.old) }
    ensures answer { outcome_of result ≡ sweep_read d v s h table.now (length out.old) }
    ensures buffer { out.new
        ≡ after (outcome_of result) (swept_words (sweep_input d v s h (words16 table.now) (length out.old))) out.old }
{
    decode(table, solid);
    let n = table.len() / 2;
    sweep(d, v, s, h, &solid[..n], out)
}

// The same from bytes to bytes, with an array for the sweep.
fn sweep_bytes(
    d: usize,
    v: usize,
    s: usize,
    h: usize,
    table: &[u8],
    solid: &mut [u16],
    words: &mut [u16],
    swept: &mut [u8],
) -> i64
    requires { SweepRoom d s h table.now (length solid.old) (length words.old) }
    ensures answer { result ≡ host_sweep d v s h table.now swept.old }
    ensures buffer { swept.new ≡ host_sweep_buffer d v s h table.now swept.old }
{
    let m = room(swept.len(), words.len());
    let a = sweep_decoded(d, v, s, h, table, solid, &mut words[..m]);
    send(a, &words[..m], swept)
}

// The words by which the room of a sweep is chosen: those of the swept table, four times for points, whose own table has two thirds of them.
fn sweep_size(d: usize, s: usize, h: usize) -> usize
    requires { (d ≤ max_source) × (1 ≤ h) × (swept_cells d s h ≤ max_cells) }
    ensures { (table_length (suc d) (swept_cells d s h) ≤ result) × (table_length d s * 8 ≤ result * 3) }
{
    let n = h * (s * (d + 1));
    if d == 0 {
        return n * 24;
    }
    table_words(d + 1, n)
}

// sweep in the room for so many words, wide where the table is not much smaller than its sweep, as in few steps. The rooms are
// functions of their own, so that a call takes the stack of its own room alone.
pub(crate) fn sweep_told(
    d: usize,
    v: usize,
    s: usize,
    h: usize,
    table: &[u8],
    swept: &mut [u8],
) -> i64
    ensures answer { result ≡ host_sweep d v s h table.now swept.old }
    ensures buffer { swept.new ≡ host_sweep_buffer d v s h table.now swept.old }
{
    if !in_limits(d, v, s, h) {
        return answered(Err(Refusal::OutsideLimits));
    }
    let n = table_words(d, s);
    if table.len() != n * 2 {
        return answered(Err(Refusal::WrongLength));
    }
    if Shape::MAX_CELLS < h * (s * (d + 1)) {
        return answered(Err(Refusal::SweptTooLarge));
    }
    let m = sweep_size(d, s, h);
    if (m <= 2560) & (n <= 320) {
        return in_room::<320, 2560>(d, v, s, h, table, swept);
    }
    if (m <= 5120) & (n <= 320) {
        return in_room::<320, 5120>(d, v, s, h, table, swept);
    }
    if m <= 5120 {
        return in_room::<1920, 5120>(d, v, s, h, table, swept);
    }
    if (m <= 10240) & (n <= 640) {
        return in_room::<640, 10240>(d, v, s, h, table, swept);
    }
    if m <= 10240 {
        return in_room::<3840, 10240>(d, v, s, h, table, swept);
    }
    if (m <= 20480) & (n <= 2560) {
        return in_room::<2560, 20480>(d, v, s, h, table, swept);
    }
    if m <= 20480 {
        return in_room::<7680, 20480>(d, v, s, h, table, swept);
    }
    if (m <= 40960) & (n <= 2560) {
        return in_room::<2560, 40960>(d, v, s, h, table, swept);
    }
    if n <= 4608 {
        return in_room::<4608, TABLE_ROOM>(d, v, s, h, table, swept);
    }
    in_room::<SOLID_ROOM, TABLE_ROOM>(d, v, s, h, table, swept)
}
