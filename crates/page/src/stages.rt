// The program's calls one after the other: each stage makes one call and lends what it wrote to the next.
ghost use Rattle.std.specs.Prelude.{◌≡◌, length};
ghost use Rattle.rules.specs.Numbers.{outcome_of};
ghost use Rattle.page.specs.Key.{byte_room, key_outcome};
ghost use Rattle.page.specs.Inner.Stages.{counted, page_after, moved_key, swept_key, winged_key};

use list::list;
use motion::move_points;
use read::{Header, read};
use records::sizes::list_words;
use rules::refusal::Refusal;
use sweep::sweep;
use wing::wing;

// The points of all levels, then the key in the form of the header's version. d and s of the header are the swept table's, v
// and h the solid's and its steps.
fn moved_key(
    header: Header,
    table: &[u16],
    points: &[f64],
    page: &mut [u8],
) -> Result<usize, Refusal>
    ensures answer { outcome_of result
        ≡ counted (moved_key header.version header.d header.n header.v header.s header.h header.step table.now points.now (length page.old)) }
    ensures page { page.new
        ≡ page_after (moved_key header.version header.d header.n header.v header.s header.h header.step
        table.now points.now (length page.old)) page.old }
{
    let Header {
        version,
        d,
        n,
        v,
        s,
        h,
        step,
    } = header;
    let mut moved = [0.0f64; 8192];
    let m = move_points(n, v, h, step, points, &mut moved)?;
    list(version, d, n, (h + 1) * v, s, table, &moved[..m], page)
}

// The swept table, then what follows.
fn swept_key(
    header: Header,
    table: &[u16],
    points: &[f64],
    page: &mut [u8],
) -> Result<usize, Refusal>
    ensures answer { outcome_of result
        ≡ counted (swept_key header.version header.d header.n header.v header.s header.h header.step table.now points.now (length page.old)) }
    ensures page { page.new
        ≡ page_after (swept_key header.version header.d header.n header.v header.s header.h header.step
        table.now points.now (length page.old)) page.old }
{
    let Header { d, v, s, h, .. } = header;
    let mut swept = [0u16; 32768];
    let m = sweep(d, v, s, h, table, &mut swept)?;
    let cells = h * (s * (d + 1));
    let over = Header {
        d: d + 1,
        s: cells,
        ..header
    };
    moved_key(over, &swept[..m], points, page)
}

// The solid's table, then what follows.
fn winged_key(
    header: Header,
    cells: &[u16],
    points: &[f64],
    page: &mut [u8],
) -> Result<usize, Refusal>
    ensures answer { outcome_of result
        ≡ counted (winged_key header.version header.d header.n header.v header.s header.h header.step cells.now points.now (length page.old)) }
    ensures page { page.new
        ≡ page_after (winged_key header.version header.d header.n header.v header.s header.h header.step
        cells.now points.now (length page.old)) page.old }
{
    let Header { d, v, s, .. } = header;
    let mut table = [0u16; 32768];
    let mut uploaded = [0u16; 32768];
    let m = wing(d, v, s, cells, &mut table, &mut uploaded)?;
    swept_key(header, &table[..m], points, page)
}

// The key of a file's bytes at the start of the page.
pub fn page_key(input: &[u8], page: &mut [u8]) -> Result<usize, Refusal>
    requires { length page.old ≡ byte_room }
    ensures answer { outcome_of result ≡ counted (key_outcome input.now) }
    ensures page { page.new ≡ page_after (key_outcome input.now) page.old }
{
    if 65536 < input.len() {
        return Err(Refusal::WrongLength);
    }
    let mut cells = [0u16; 32768];
    let mut points = [0.0f64; 8192];
    let header = read(input, &mut cells, &mut points)?;
    let words = list_words(header.d, header.s);
    let floats = header.v * header.n;
    winged_key(header, &cells[..words], &points[..floats], page)
}
