// The program key: reads a file from standard input and prints its key, or the one line "refused N".
#![tactic(auto)]

ghost use Rattle.std.specs.Prelude.{◌≡◌, length, take};
ghost use Rattle.std.specs.Io.{ReadsAtMost};
ghost use Rattle.io.specs.Counts.{IsPrefixLen};
ghost use Rattle.page.specs.Key.{byte_room, printed};

use page::key::key_text;
use std::io::{Read, Result, Stdin};

// Writes what is printed for the input from the start of the text, and answers the count of its bytes.
fn print_to(input: &[u8], text: &mut [u8]) -> usize
    requires { length text.old ≡ byte_room }
    ensures fits { IsPrefixLen result text.new }
    ensures bytes { take result text.new ≡ printed input.now }
{
    key_text(input, text).unwrap_or(0)
}

// Reads until the input ends or the buffer is full, and answers the count of bytes; an error where a read fails, for whatever
// reason, an interruption too.
fn read_all(mut from: Stdin, input: &mut [u8]) -> Result<usize>
    ensures { ReadsAtMost result input.new }
{
    let mut done = 0;
    while done < input.len() {
        let more = from.read(&mut input[done..])?;
        if more == 0 {
            return Ok(done);
        }
        done += more;
    }
    Ok(done)
}

// A failed read prints no key; a text that is not taken whole is told. What the system reads and writes no contract can say.
fn main(rt: HostRuntime) {
    let mut input = [0u8; 65537];
    let Ok(n) = read_all(rt.stdin(), &mut input) else {
        let _ = rt.eprintln("key: the input could not be read");
        return;
    };
    let mut text = [0u8; 65536];
    let m = print_to(&input[..n], &mut text);
    if rt.write_all(&text[..m]).is_err() {
        let _ = rt.eprintln("key: the text could not be written");
    }
}
