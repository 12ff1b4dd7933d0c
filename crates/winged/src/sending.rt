// What goes back to the host: the room of its buffer, the answer as a number, the words as bytes.
ghost use Rattle.std.specs.Prelude.{◌≡◌, ◌*◌, ◌/◌, ◌<◌, ◌≤◌, pos, neg_ℤ, length};
ghost use Rattle.rules.specs.Numbers.{outcome_of};
ghost use Rattle.winged.specs.Host.{host_answer};
ghost use Rattle.winged.specs.Inner.Sent.{lesser, small_table, count_of, sent};

use records::sizes::table_words;
use rules::limits::Shape;
use rules::refusal::Refusal;
use words::copy::encode;

// Whole words of so many bytes, at most so many.
pub fn room(bytes: usize, most: usize) -> usize
    ensures { result ≡ lesser (bytes / 2) most }
{
    let n = bytes / 2;
    if n <= most {
        return n;
    }
    most
}

// Whether a table of s cells of dimension d has at most so many words, or more cells or dimensions than any.
pub fn is_small(d: usize, s: usize, most: usize) -> bool
    ensures { result ≡ small_table d s most }
{
    if Shape::MAX_DIMENSION < d {
        return true;
    }
    if Shape::MAX_CELLS < s {
        return true;
    }
    table_words(d, s) <= most
}

fn minus(k: u8) -> i64
    ensures { result ≡ neg_ℤ (pos k) }
{
    -(k as i64)
}

// The count as it is, or minus the refusal's number.
pub fn answered(a: Result<usize, Refusal>) -> i64
    requires { count_of (outcome_of a) < 9223372036854775808 }
    ensures { result ≡ host_answer (outcome_of a) }
{
    match a {
        Ok(n) => n as i64,
        Err(refusal) => minus(u8::from(refusal)),
    }
}

// The words that were written go to the start of the lent bytes; a refusal sends none.
pub fn send(a: Result<usize, Refusal>, words: &[u16], out: &mut [u8]) -> i64
    requires { (count_of (outcome_of a) ≤ length words.now) × (count_of (outcome_of a) * 2 ≤ length out.old) }
    ensures answer { result ≡ host_answer (outcome_of a) }
    ensures buffer { out.new ≡ sent (outcome_of a) words.now out.old }
{
    match a {
        Ok(n) => {
            encode(&words[..n], out);
            n as i64
        }
        Err(refusal) => minus(u8::from(refusal)),
    }
}
