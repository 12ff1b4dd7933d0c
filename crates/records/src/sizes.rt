// How many words there are to a list cell, a table record, a face record and a cell's wings, and to whole lists and
// tables; where the vertices and the wings begin.
ghost use Rattle.std.specs.Prelude.{◌≡◌, ◌≤◌};
ghost use Rattle.rules.specs.Limits.{max_dimension, max_cells};
ghost use Rattle.records.specs.Layout.{list_size, record_size, face_size, wing_place, wings_size, list_length, table_length, wings_length};

// The wing word for no neighbour.
pub const EMPTY: u16 = 65535;
// The places of the material and of the first vertex in a list cell and in a table record.
pub const MATERIAL: usize = 1;

pub const VERTICES: usize = 2;
// Words of the largest list of cells, and of the largest table: 4,096 cells of dimension 7.
pub const LIST_ROOM: usize = 40960;

pub const TABLE_ROOM: usize = 73728;
// Words of a small table; to clear room for the largest takes longer than to wing a few hundred cells.
pub const SMALL_ROOM: usize = 16384;
// Words of the largest table that can be swept: 4,096 swept points of dimension 0.
pub const SOLID_ROOM: usize = 16384;

pub fn list_size(d: usize) -> usize
    requires { d ≤ 255 }
    ensures { result ≡ list_size d }
{
    d + 3
}

pub fn record_size(d: usize) -> usize
    requires { d ≤ max_dimension }
    ensures { result ≡ record_size d }
{
    d + d + 4
}

// The place of the first wing in a table record, which begins with a list cell.
pub fn first_wing(d: usize) -> usize
    requires { d ≤ max_dimension }
    ensures { result ≡ wing_place d 0 }
{
    list_size(d)
}

// Of a face of a cell of dimension d.
pub fn face_size(d: usize) -> usize
    requires { d ≤ max_dimension }
    ensures { result ≡ face_size d }
{
    d + 2
}

// Words of a list of s cells.
pub fn list_words(d: usize, s: usize) -> usize
    requires { (d ≤ max_dimension) × (s ≤ max_cells) }
    ensures { result ≡ list_length d s }
{
    s * list_size(d)
}

// Words of a table of s cells.
pub fn table_words(d: usize, s: usize) -> usize
    requires { (d ≤ max_dimension) × (s ≤ max_cells) }
    ensures { result ≡ table_length d s }
{
    s * record_size(d)
}

// Wings of a cell.
pub fn wings_size(d: usize) -> usize
    requires { d ≤ max_dimension }
    ensures { result ≡ wings_size d }
{
    d + 1
}

// Wings of s cells.
pub fn wings_words(d: usize, s: usize) -> usize
    requires { (d ≤ max_dimension) × (s ≤ max_cells) }
    ensures { result ≡ wings_length d s }
{
    s * wings_size(d)
}
