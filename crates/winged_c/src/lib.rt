// Winged solids for a host in C: the symbols of include/winged.h. Each is the call of that name of the crate winged.
#![tactic(auto)]

ghost use Rattle.std.specs.Prelude.{◌≡◌, ◌/◌, length};
ghost use Rattle.winged.specs.Host.{host_wing, host_wing_buffer, host_uploaded_buffer, host_sweep, host_sweep_buffer};
ghost use Rattle.winged.specs.Host.{host_faces, host_faces_buffer, host_answer};
ghost use Rattle.hosting.specs.Lists.{host_list_outcome, host_list_buffer};
ghost use Rattle.hosting.specs.Moves.{move_told, host_move_outcome, host_move_buffer};
ghost use Rattle.hosting.specs.Reads.{host_read_outcome, host_read_header, host_read_cells, host_read_points};
ghost use Rattle.page.specs.Key.{text_outcome, text_buffer};

#[unsafe(no_mangle)]
pub extern "C" fn winged_wing(
    d: u32,
    v: u32,
    s: u32,
    cells: &[u8],
    table: &mut [u8],
    uploaded: &mut [u8],
) -> i64
    ensures answer { result ≡ host_wing d v s cells.now table.old uploaded.old }
    ensures buffer { table.new ≡ host_wing_buffer d v s cells.now table.old uploaded.old }
    ensures uploaded { uploaded.new
        ≡ host_uploaded_buffer d v s cells.now table.old uploaded.old }
{
    winged::winged_wing(d, v, s, cells, table, uploaded)
}

#[unsafe(no_mangle)]
pub extern "C" fn winged_sweep(
    d: u32,
    v: u32,
    s: u32,
    h: u32,
    table: &[u8],
    swept: &mut [u8],
) -> i64
    ensures answer { result ≡ host_sweep d v s h table.now swept.old }
    ensures buffer { swept.new ≡ host_sweep_buffer d v s h table.now swept.old }
{
    winged::winged_sweep(d, v, s, h, table, swept)
}

#[unsafe(no_mangle)]
pub extern "C" fn winged_faces(d: u32, v: u32, s: u32, table: &[u8], faces: &mut [u8]) -> i64
    ensures answer { result ≡ host_faces d v s table.now faces.old }
    ensures buffer { faces.new ≡ host_faces_buffer d v s table.now faces.old }
{
    winged::winged_faces(d, v, s, table, faces)
}

#[unsafe(no_mangle)]
pub extern "C" fn winged_read(
    file: &[u8],
    header: &mut [u8],
    cells: &mut [u8],
    points: &mut [u8],
) -> i64
    ensures answer { result
        ≡ host_answer (host_read_outcome file.now header.old cells.old points.old) }
    ensures header { header.new
        ≡ host_read_header file.now header.old cells.old points.old }
    ensures cells { cells.new
        ≡ host_read_cells file.now header.old cells.old points.old }
    ensures points { points.new
        ≡ host_read_points file.now header.old cells.old points.old }
{
    winged::winged_read(file, header, cells, points)
}

#[unsafe(no_mangle)]
pub extern "C" fn winged_move(
    n: u32,
    v: u32,
    h: u32,
    kind: u32,
    axis: u32,
    other: u32,
    a: u64,
    b: u64,
    c: u64,
    points: &[u8],
    levels: &mut [u8],
) -> i64
    ensures answer { result ≡ host_answer (host_move_outcome (move_told n v h
        (record { kind = kind; axis = axis; other = other; a = a; b = b; c = c }) points.now (length levels.old / 8))) }
    ensures buffer { levels.new
        ≡ host_move_buffer (move_told n v h (record { kind = kind; axis = axis; other = other; a = a; b = b; c = c })
        points.now (length levels.old / 8)) levels.old }
{
    winged::winged_move(n, v, h, kind, axis, other, a, b, c, points, levels)
}

#[unsafe(no_mangle)]
pub extern "C" fn winged_list(
    version: u32,
    d: u32,
    n: u32,
    v: u32,
    s: u32,
    table: &[u8],
    points: &[u8],
    text: &mut [u8],
) -> i64
    ensures answer { result ≡ host_answer (host_list_outcome version d n v s table.now points.now text.old) }
    ensures buffer { text.new ≡ host_list_buffer version d n v s table.now points.now text.old }
{
    winged::winged_list(version, d, n, v, s, table, points, text)
}

#[unsafe(no_mangle)]
pub extern "C" fn winged_key(file: &[u8], text: &mut [u8]) -> i64
    ensures answer { result ≡ host_answer (text_outcome file.now (length text.old)) }
    ensures buffer { text.new ≡ text_buffer file.now text.old }
{
    winged::winged_key(file, text)
}
