// The calls on bytes: the numbers and the length are tested, the input is decoded, and the call writes words.
ghost use Rattle.std.specs.Prelude.{◌≡◌, length};
ghost use Rattle.words.specs.Bytes.{words16, bytes_of};
ghost use Rattle.rules.specs.Numbers.{outcome_of};
ghost use Rattle.rules.specs.Calls.{after};
ghost use Rattle.solids.specs.Table.{table_of_list};
ghost use Rattle.solids.specs.Uploaded.{uploaded_of_list};
ghost use Rattle.wing.specs.Wing.{wing_input, wing_outcome};
ghost use Rattle.winged.specs.Host.{words_in, host_list};
ghost use Rattle.winged.specs.Inner.Sent.{wing_read};

use direct::uploaded::uploaded_bytes;
use records::sizes::{LIST_ROOM, list_words};
use rules::limits::Shape;
use rules::refusal::Refusal;
use wing::wing_table;
use words::copy::decode;

// wing on a list of words, with the further buffer in bytes.
fn wing_list(
    d: usize,
    v: usize,
    s: usize,
    cells: &[u16],
    out: &mut [u16],
    uploaded: &mut [u8],
) -> Result<usize, Refusal>
    ensures answer { outcome_of result
        ≡ wing_outcome (wing_input d v s cells.now (length out.old) (words_in uploaded.old)) }
    ensures buffer { out.new
        ≡ after (outcome_of result) (table_of_list (record { d = d; v = v; s = s; words = cells.now })) out.old }
    ensures uploaded { uploaded.new
        ≡ after (outcome_of result) (bytes_of (uploaded_of_list (record { d = d; v = v; s = s; words = cells.now }))) uploaded.old }
{
    let n = wing_table(d, v, s, cells, uploaded.len() / 2, out)?;
    uploaded_bytes(d, s, cells, &out[..n], uploaded);
    Ok(n)
}

pub fn wing_words(
    d: usize,
    v: usize,
    s: usize,
    cells: &[u8],
    out: &mut [u16],
    uploaded: &mut [u8],
) -> Result<usize, Refusal>
    ensures answer { outcome_of result
        ≡ wing_read d v s cells.now (length out.old) (words_in uploaded.old) }
    ensures buffer { out.new ≡ after (outcome_of result) (table_of_list (host_list d v s cells.now)) out.old }
    ensures uploaded { uploaded.new
        ≡ after (outcome_of result) (bytes_of (uploaded_of_list (host_list d v s cells.now))) uploaded.old }
{
    if !Shape::within(Shape::MAX_DIMENSION, d, v, s) {
        return Err(Refusal::OutsideLimits);
    }
    let n = list_words(d, s);
    if cells.len() != n * 2 {
        return Err(Refusal::WrongLength);
    }
    let mut list = [0u16; LIST_ROOM];
    decode(cells, &mut list);
    wing_list(d, v, s, &list[..n], out, uploaded)
}
