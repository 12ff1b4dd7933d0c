// The limits, each tested by one function, and a table's shape with the constructor that tests it.
ghost use Rattle.std.specs.Prelude.{◌≡◌, ◌≤◌};
ghost use Rattle.rules.specs.Limits.{axes_ok, vertices_ok, cells_ok, sizes_ok, steps_ok, version_ok, with_materials};
ghost use Rattle.rules.specs.Limits.{max_vertices, max_steps, swept_vertices};
ghost use Rattle.rules.specs.Shapes.{shape_of, shape_ok};

// Dimension, vertex count and cell count of a table.
#[derive(Clone, Copy, Debug, PartialEq, Eq)]
pub struct Shape {
    pub d: usize,
    pub v: usize,
    pub s: usize,
}

pub fn axes_ok(n: usize) -> bool
    ensures { result ≡ axes_ok n }
{
    (1..=Shape::MAX_AXES).contains(&n)
}

pub fn vertices_ok(v: usize) -> bool
    ensures { result ≡ vertices_ok v }
{
    v <= Shape::MAX_VERTICES
}

pub fn cells_ok(s: usize) -> bool
    ensures { result ≡ cells_ok s }
{
    s <= Shape::MAX_CELLS
}

pub fn steps_ok(h: usize) -> bool
    ensures { result ≡ steps_ok h }
{
    (1..=Shape::MAX_STEPS).contains(&h)
}

pub fn version_ok(version: usize) -> bool
    ensures { result ≡ version_ok version }
{
    (1..=Shape::MAX_VERSION).contains(&version)
}

// Whether files and keys of that version have materials.
pub fn with_materials(version: usize) -> bool
    ensures { result ≡ with_materials version }
{
    version == 2
}

// A solid may be without cells, and only then without vertices.
pub fn sizes_ok(v: usize, s: usize) -> bool
    ensures { result ≡ sizes_ok v s }
{
    vertices_ok(v) && cells_ok(s) && (s == 0 || 1 <= v)
}

// Vertices of a sweep in h steps.
pub fn swept_vertices(v: usize, h: usize) -> usize
    requires { (v ≤ max_vertices) × (h ≤ max_steps) }
    ensures { result ≡ swept_vertices v h }
{
    (h + 1) * v
}

impl Shape {
    pub const MAX_DIMENSION: usize = 7;
    // Of what is read or swept: the sweep has one dimension more.
    pub const MAX_SOURCE: usize = 6;

    pub const MAX_AXES: usize = 8;

    pub const MAX_VERTICES: usize = 4096;

    pub const MAX_CELLS: usize = 4096;

    pub const MAX_STEPS: usize = 64;

    pub const MAX_MATERIAL: u16 = 999;

    // Of a file and of a key.
    pub const MAX_VERSION: usize = 2;

    // Whether the numbers make a shape: d is at most top, which is MAX_DIMENSION, or MAX_SOURCE for what is read or
    // swept, and the counts are within the limits.
    pub fn within(top: usize, d: usize, v: usize, s: usize) -> bool
        ensures { result ≡ shape_ok top d v s }
    {
        d <= top && sizes_ok(v, s)
    }

    // The shape, if the numbers make one.
    pub fn new(top: usize, d: usize, v: usize, s: usize) -> Option<Shape>
        ensures { result ≡ shape_of top d v s }
    {
        if Shape::within(top, d, v, s) {
            return Some(Shape { d, v, s });
        }
        None
    }
}
