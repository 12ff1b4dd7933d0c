// The text that the program key prints, from a file's bytes.
ghost use Rattle.std.specs.Prelude.{◌≡◌, ◌≤◌, length, take};
ghost use Rattle.rules.specs.Calls.{refused};
ghost use Rattle.rules.specs.Numbers.{outcome_of};
ghost use Rattle.words.specs.Inner.Placed.{Put};
ghost use Rattle.page.specs.Key.{byte_room, spoken, printed, text_outcome, text_buffer};

use crate::stages::page_key;
use printing::writing::{put_byte, put_number, put_text};
use rules::refusal::Refusal;

// The line for a refusal.
fn put_refused(page: &mut [u8], k: u8) -> usize
    requires { length page.old ≡ byte_room }
    ensures { Put 0 (spoken (refused k)) page.old result page.new }
{
    let at = put_text(page, 0, b"refused ");
    let end = put_number(page, at, k as u64);
    put_byte(page, end, b'\n')
}

// What is printed, from the start of the page; the count of its bytes.
fn print_page(input: &[u8], page: &mut [u8]) -> usize
    requires { length page.old ≡ byte_room }
    ensures count { result ≡ length (printed input.now) }
    ensures fits { result ≤ length page.new }
    ensures bytes { take result page.new ≡ printed input.now }
{
    match page_key(input, page) {
        Ok(n) => n,
        Err(refusal) => put_refused(page, u8::from(refusal)),
    }
}

// Writes the printed text from the start of the lent bytes, and answers the count of its bytes.
pub fn key_text(input: &[u8], text: &mut [u8]) -> Result<usize, Refusal>
    ensures answer { outcome_of result ≡ text_outcome input.now (length text.old) }
    ensures buffer { text.new ≡ text_buffer input.now text.old }
{
    let mut page = [0u8; 65536];
    let n = print_page(input, &mut page);
    if text.len() < n {
        return Err(Refusal::NoRoom);
    }
    Ok(put_text(text, 0, &page[..n]))
}
