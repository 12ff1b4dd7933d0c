// Winged solids for a host in C: numbers and lent bytes in, a count of words or minus a refusal's number out.
#![tactic(auto)]

ghost use Rattle.std.specs.Prelude.{◌≡◌, ◌/◌, length};
ghost use Rattle.winged.specs.Host.{host_wing, host_wing_buffer, host_uploaded_buffer, host_sweep, host_sweep_buffer};
ghost use Rattle.winged.specs.Host.{host_faces, host_faces_buffer, host_answer};
ghost use Rattle.hosting.specs.Lists.{host_list_outcome, host_list_buffer};
ghost use Rattle.hosting.specs.Moves.{move_told, host_move_outcome, host_move_buffer};
ghost use Rattle.hosting.specs.Reads.{host_read_outcome, host_read_header, host_read_cells, host_read_points};
ghost use Rattle.page.specs.Key.{text_outcome, text_buffer};

use crate::faces::faces_told;
use crate::host::{sweep_told, wing_told};
use crate::sending::answered;
use direct::lent::in_room;
use hosting::lists::list_bytes;
use hosting::moving::move_bytes;
use hosting::reading::read_bytes;
use hosting::step_bits::StepBits;
use page::key::key_text;
use records::sizes::table_words;

mod faces;
mod host;
mod reading;
mod sending;

pub fn winged_wing(
    d: u32,
    v: u32,
    s: u32,
    cells: &[u8],
    table: &mut [u8],
    uploaded: &mut [u8],
) -> i64
    ensures answer { result ≡ host_wing d v s cells.now table.old uploaded.old }
    ensures buffer { table.new ≡ host_wing_buffer d v s cells.now table.old uploaded.old }
    ensures uploaded { uploaded.new
        ≡ host_uploaded_buffer d v s cells.now table.old uploaded.old }
{
    let d = d as usize;
    let v = v as usize;
    let s = s as usize;
    // Points have no faces to pair.
    if d == 0 {
        return wing_told(d, v, s, cells, table, uploaded);
    }
    if in_room(d, v, s, cells, table, uploaded) {
        return table_words(d, s) as i64;
    }
    wing_told(d, v, s, cells, table, uploaded)
}

pub fn winged_sweep(d: u32, v: u32, s: u32, h: u32, table: &[u8], swept: &mut [u8]) -> i64
    ensures answer { result ≡ host_sweep d v s h table.now swept.old }
    ensures buffer { swept.new ≡ host_sweep_buffer d v s h table.now swept.old }
{
    let d = d as usize;
    let v = v as usize;
    let s = s as usize;
    let h = h as usize;
    sweep_told(d, v, s, h, table, swept)
}

pub fn winged_faces(d: u32, v: u32, s: u32, table: &[u8], faces: &mut [u8]) -> i64
    ensures answer { result ≡ host_faces d v s table.now faces.old }
    ensures buffer { faces.new ≡ host_faces_buffer d v s table.now faces.old }
{
    let d = d as usize;
    let v = v as usize;
    let s = s as usize;
    faces_told(d, v, s, table, faces)
}

pub fn winged_read(file: &[u8], header: &mut [u8], cells: &mut [u8], points: &mut [u8]) -> i64
    ensures answer { result
        ≡ host_answer (host_read_outcome file.now header.old cells.old points.old) }
    ensures header { header.new
        ≡ host_read_header file.now header.old cells.old points.old }
    ensures cells { cells.new
        ≡ host_read_cells file.now header.old cells.old points.old }
    ensures points { points.new
        ≡ host_read_points file.now header.old cells.old points.old }
{
    answered(read_bytes(file, header, cells, points))
}

pub fn winged_move(
    n: u32,
    v: u32,
    h: u32,
    kind: u32,
    axis: u32,
    other: u32,
    a: u64,
    b: u64,
    c: u64,
    points: &[u8],
    levels: &mut [u8],
) -> i64
    ensures answer { result ≡ host_answer (host_move_outcome (move_told n v h
        (record { kind = kind; axis = axis; other = other; a = a; b = b; c = c }) points.now (length levels.old / 8))) }
    ensures buffer { levels.new
        ≡ host_move_buffer (move_told n v h (record { kind = kind; axis = axis; other = other; a = a; b = b; c = c })
        points.now (length levels.old / 8)) levels.old }
{
    let step = StepBits {
        kind: kind as usize,
        axis: axis as usize,
        other: other as usize,
        a,
        b,
        c,
    };
    answered(move_bytes(n as usize, v as usize, h as usize, step, points, levels))
}

pub fn winged_list(
    version: u32,
    d: u32,
    n: u32,
    v: u32,
    s: u32,
    table: &[u8],
    points: &[u8],
    text: &mut [u8],
) -> i64
    ensures answer { result ≡ host_answer (host_list_outcome version d n v s table.now points.now text.old) }
    ensures buffer { text.new ≡ host_list_buffer version d n v s table.now points.now text.old }
{
    answered(list_bytes(
        version as usize,
        d as usize,
        n as usize,
        v as usize,
        s as usize,
        table,
        points,
        text,
    ))
}

pub fn winged_key(file: &[u8], text: &mut [u8]) -> i64
    ensures answer { result ≡ host_answer (text_outcome file.now (length text.old)) }
    ensures buffer { text.new ≡ text_buffer file.now text.old }
{
    answered(key_text(file, text))
}
