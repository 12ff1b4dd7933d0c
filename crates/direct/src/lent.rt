// The call wing where nothing refuses it, in lent arrays.
mod rooms;

ghost use Rattle.std.specs.Prelude.{◌≡◌, true, ◌≤◌, length};
ghost use Rattle.records.specs.Layout.{list_length, table_length};
ghost use Rattle.direct.specs.Inner.Direct.{Buckets, Direct, Lent};

use crate::lent::rooms::in_places;
use crate::uploaded::uploaded_bytes;
use linking::try_table;
use records::sizes::{LIST_ROOM, TABLE_ROOM, list_words, table_words, wings_words};
use rules::limits::Shape;
use words::copy::{decode, encode};

// In lent arrays, the first two as long as the list and its table, and the buckets empty. True says that the call is accepted and all is written;
// false says nothing, and nothing is.
fn write_lent(
    d: usize,
    v: usize,
    s: usize,
    cells: &[u8],
    list: &mut [u16],
    words: &mut [u16],
    hash: &mut [u32],
    head: &mut [u16],
    next: &mut [u16],
    table: &mut [u8],
    uploaded: &mut [u8],
) -> bool
    requires lent { Lent d v s cells.now table.old uploaded.old × Buckets d s hash.old head.old next.old }
    requires list_len { (length list.old ≡ list_length d s) × (length words.old ≡ table_length d s) }
    ensures { Direct d v s cells.now table.old uploaded.old table.new uploaded.new result }
{
    decode(cells, list);
    if try_table(d, v, s, list, words, hash, head, next) {
        encode(words, table);
        uploaded_bytes(d, s, list, words, uploaded);
        return true;
    }
    false
}

// The same in arrays that may be longer.
fn in_arrays(
    d: usize,
    v: usize,
    s: usize,
    cells: &[u8],
    list: &mut [u16],
    words: &mut [u16],
    hash: &mut [u32],
    head: &mut [u16],
    next: &mut [u16],
    table: &mut [u8],
    uploaded: &mut [u8],
) -> bool
    requires lent { Lent d v s cells.now table.old uploaded.old × Buckets d s hash.old head.old next.old }
    requires s_in_bounds { (list_length d s ≤ length list.old) × (table_length d s ≤ length words.old) }
    ensures { Direct d v s cells.now table.old uploaded.old table.new uploaded.new result }
{
    let n = list_words(d, s);
    let m = table_words(d, s);
    write_lent(
        d,
        v,
        s,
        cells,
        &mut list[..n],
        &mut words[..m],
        hash,
        head,
        next,
        table,
        uploaded,
    )
}

// Tries the call in the room for so many places. True says that it is accepted and all is written; false says nothing, and nothing is. From
// 4,096 places on, where branches are foretold less well, there are three buckets for a place, so that fewer of them are shared; in the largest
// room the stack has no space for more.
pub fn in_room(
    d: usize,
    v: usize,
    s: usize,
    cells: &[u8],
    table: &mut [u8],
    uploaded: &mut [u8],
) -> bool
    ensures lent { result ≡ true → Lent d v s cells.now table.old uploaded.old }
    ensures direct { Direct d v s cells.now table.old uploaded.old
        table.new uploaded.new result }
{
    if d == 0 {
        return false;
    }
    if !Shape::within(Shape::MAX_DIMENSION, d, v, s) {
        return false;
    }
    if cells.len() != list_words(d, s) * 2 {
        return false;
    }
    if table.len() < table_words(d, s) * 2 {
        return false;
    }
    let n = wings_words(d, s);
    if uploaded.len() < n * 2 {
        return false;
    }
    if n <= 512 {
        return in_places::<512, 1024, 1536, 1024>(d, v, s, cells, table, uploaded);
    }
    if n <= 1024 {
        return in_places::<1024, 2048, 3072, 2048>(d, v, s, cells, table, uploaded);
    }
    if n <= 2048 {
        return in_places::<2048, 4096, 6144, 4096>(d, v, s, cells, table, uploaded);
    }
    if n <= 4096 {
        return in_places::<4096, 8192, 12288, 12288>(d, v, s, cells, table, uploaded);
    }
    if n <= 8192 {
        return in_places::<8192, 16384, 24576, 24576>(d, v, s, cells, table, uploaded);
    }
    if n <= 16384 {
        return in_places::<16384, 32768, 49152, 49152>(d, v, s, cells, table, uploaded);
    }
    in_places::<32768, LIST_ROOM, TABLE_ROOM, 36864>(d, v, s, cells, table, uploaded)
}
