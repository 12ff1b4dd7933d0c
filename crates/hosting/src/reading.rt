// The call read on bytes.
ghost use Rattle.std.specs.Prelude.{◌≡◌, ◌||◌, ◌++◌, ◌/◌, ◌≤◌, ltb, length, drop};
ghost use Rattle.words.specs.Bytes.{bytes_of};
ghost use Rattle.rules.specs.Calls.{written};
ghost use Rattle.rules.specs.Numbers.{outcome_of};
ghost use Rattle.file.specs.File.{header_size, point_count, file_length};
ghost use Rattle.file.specs.Tests.{cells_length};
ghost use Rattle.read.specs.Read.{read_input, read_outcome, read_cells};
ghost use Rattle.hosting.specs.Inner.Rooms.{word_room, float_room};
ghost use Rattle.hosting.specs.Reads.{told_size, header_bytes, header_words, point_bytes, word_count};
ghost use Rattle.hosting.specs.Reads.{host_read_outcome, host_read_header, host_read_cells, host_read_points};

use crate::floats::FLOAT_ROOM;
use file::{cells, numbers};
use printing::writing::put_text;
use read::read_cells;
use rules::refusal::Refusal;
use words::copy;

// Words of the largest list that is read: 4,096 cells of dimension 6.
const WORD_ROOM: usize = 36864;
// Bytes of what is told of a header.
const TOLD_SIZE: usize = 42;

// The cells' words, with room for the largest file. The points are copied from the file's bytes as they stand there.
fn read_words(file: &[u8], words: &mut [u16]) -> Result<usize, Refusal>
    requires { length words.old ≡ word_room }
    ensures answer { outcome_of result ≡ word_count file.now (read_outcome (read_input file.now word_room float_room)) }
    ensures buffer { words.new ≡ read_cells (read_input file.now word_room float_room) words.old }
{
    read_cells(file, words, FLOAT_ROOM)?;
    Ok(cells::words(file))
}

// Row 15: bytes of the three lent buffers.
fn no_room(file: &[u8], header: usize, cells: usize, points: usize) -> bool
    requires { header_size ≤ length file.now }
    ensures { result
        ≡ (ltb header told_size || (ltb (cells / 2) (cells_length file.now) || ltb (points / 8) (point_count file.now))) }
{
    if header < TOLD_SIZE {
        return true;
    }
    if cells / 2 < cells::words(file) {
        return true;
    }
    points / 8 < numbers::point_count(file)
}

// The header's numbers as words.
fn put_numbers(file: &[u8], header: &mut [u8])
    requires { (header_size ≤ length file.now) × (told_size ≤ length header.old) }
    ensures { header.new ≡ bytes_of (header_words file.now) ++ drop 16 header.old }
{
    let words = [
        numbers::dimension(file) as u16,
        numbers::axes(file) as u16,
        numbers::vertex_count(file) as u16,
        numbers::cell_count(file) as u16,
        numbers::steps(file) as u16,
        // with u16::from the proof of these three does not close
        file[13] as u16,
        file[14] as u16,
        file[15] as u16,
    ];
    copy::encode(&words, header);
}

fn put_header(file: &[u8], header: &mut [u8])
    requires { (header_size ≤ length file.now) × (told_size ≤ length header.old) }
    ensures { header.new ≡ written (header_bytes file.now) header.old }
{
    put_numbers(file, header);
    put_text(header, 16, &file[16..40]);
    put_text(header, 40, &file[3..5]);
}

fn put_points(file: &[u8], points: &mut [u8])
    requires { (length file.now ≡ file_length file.now) × (point_count file.now ≤ length points.old / 8) }
    ensures { points.new ≡ written (point_bytes file.now) points.old }
{
    let end = numbers::cells_start(file);
    put_text(points, 0, &file[40..end]);
}

pub fn read_bytes(
    file: &[u8],
    header: &mut [u8],
    cells: &mut [u8],
    points: &mut [u8],
) -> Result<usize, Refusal>
    ensures answer { outcome_of result ≡ host_read_outcome file.now header.old cells.old points.old }
    ensures header { header.new
        ≡ host_read_header file.now header.old cells.old points.old }
    ensures cells { cells.new ≡ host_read_cells file.now header.old cells.old points.old }
    ensures points { points.new
        ≡ host_read_points file.now header.old cells.old points.old }
{
    let mut words = [0u16; WORD_ROOM];
    let n = read_words(file, &mut words)?;
    if no_room(file, header.len(), cells.len(), points.len()) {
        return Err(Refusal::NoRoom);
    }
    put_header(file, header);
    copy::encode(&words[..n], cells);
    put_points(file, points);
    Ok(n)
}
