// The call read.
#![tactic(auto)]

ghost use Rattle.std.specs.Prelude.{◌≡◌, true, ◌||◌, ◌≤◌, ltb, length};
ghost use Rattle.words.specs.Records.{all_of, tabulate};
ghost use Rattle.rules.specs.Calls.{first_refusal};
ghost use Rattle.rules.specs.Numbers.{verdict_of};
ghost use Rattle.points.specs.Step.{in_range};
ghost use Rattle.file.specs.File.{header_size, amount_of, point_count};
ghost use Rattle.file.specs.Tests.{cells_length};
ghost use Rattle.read.specs.Read.{header_of, read_input, read_rules, read_outcome, read_cells, read_points, header_outcome};

use file::{cells, floats, numbers, step as steps};
use points::step::Step;
use rules::refusal::Refusal;

// The header's numbers and the step. Files of version 1 have no materials.
#[derive(Clone, Copy)]
pub struct Header {
    pub version: usize,
    pub d: usize,
    pub n: usize,
    pub v: usize,
    pub s: usize,
    pub h: usize,
    pub step: Step,
}

#[tactic(auto, unfolding(crate::specs::Read::header_of))]
fn header_of(b: &[u8]) -> Header
    requires { (header_size ≤ length b.now) × (all_of in_range (tabulate 3 (amount_of b.now)) ≡ true) }
    ensures { result ≡ header_of b.now }
{
    let step = steps::step(b);
    Header {
        version: numbers::version(b),
        d: numbers::dimension(b),
        n: numbers::axes(b),
        v: numbers::vertex_count(b),
        s: numbers::cell_count(b),
        h: numbers::steps(b),
        step,
    }
}

// Row 15: no place for the cells in `room` words, or for the points in `space` floats.
fn no_room(b: &[u8], room: usize, space: usize) -> bool
    requires { header_size ≤ length b.now }
    ensures { result ≡ (ltb room (cells_length b.now) || ltb space (point_count b.now)) }
{
    if room < cells::words(b) {
        return true;
    }
    space < numbers::point_count(b)
}

// The first of rows 1 to 8, 18 and 15 that refuses the bytes, with `room` words and `space` floats lent. Each is tried over
// the whole file.
fn first_refusal(b: &[u8], room: usize, space: usize) -> Result<(), Refusal>
    ensures { verdict_of result ≡ first_refusal read_rules (read_input b.now room space) }
{
    if numbers::not_ours(b) {
        return Err(Refusal::NotOurs);
    }
    if numbers::outside_limits(b) {
        return Err(Refusal::OutsideLimits);
    }
    if numbers::wrong_length(b) {
        return Err(Refusal::WrongLength);
    }
    if floats::out_of_range(b) {
        return Err(Refusal::FloatRange);
    }
    if steps::step_unfit(b) {
        return Err(Refusal::StepUnfit);
    }
    if cells::bad_sign(b) {
        return Err(Refusal::BadSign);
    }
    if cells::bad_vertex(b) {
        return Err(Refusal::BadVertex);
    }
    if cells::vertex_twice(b) {
        return Err(Refusal::VertexTwice);
    }
    if cells::bad_material(b) {
        return Err(Refusal::BadMaterial);
    }
    if no_room(b, room, space) {
        return Err(Refusal::NoRoom);
    }
    Ok(())
}

// Reads a file but for its points, whose room is told: its cells go to the buffer, and the header is the answer. A refused
// call writes nothing.
pub fn read_cells(bytes: &[u8], cells: &mut [u16], space: usize) -> Result<Header, Refusal>
    ensures answer { header_outcome result ≡ read_outcome (read_input bytes.now (length cells.old) space) }
    ensures cells { cells.new
        ≡ read_cells (read_input bytes.now (length cells.old) space) cells.old }
{
    first_refusal(bytes, cells.len(), space)?;
    cells::write_cells(bytes, cells);
    Ok(header_of(bytes))
}

// Reads a file: its cells go to one buffer, its points to another, and the header is the answer. A refused call writes
// nothing.
pub fn read(bytes: &[u8], cells: &mut [u16], points: &mut [f64]) -> Result<Header, Refusal>
    ensures answer { header_outcome result
        ≡ read_outcome (read_input bytes.now (length cells.old) (length points.old)) }
    ensures cells { cells.new
        ≡ read_cells (read_input bytes.now (length cells.old) (length points.old)) cells.old }
    ensures points { points.new
        ≡ read_points (read_input bytes.now (length cells.old) (length points.old)) points.old }
{
    let header = read_cells(bytes, cells, points.len())?;
    floats::write_points(bytes, points);
    Ok(header)
}
