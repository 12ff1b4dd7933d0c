// A program over the library: a square of two triangles is winged and swept in one step, and the boundary of the sweep is
// printed, a face a line. These are the faces of the marked key K2.
//
// No call asks anything of its caller: whatever it is handed, it answers or refuses, and its contract says which. So the
// calls need no proof here; what is proved is that the program ends and does nothing undefined.
#![tactic(auto)]

use rules::refusal::Refusal;
use std::io;

// A face of the list: a sign word, 0 for plus and 1 for minus, three vertices, and a material, which is not printed.
fn print_face(rt: &impl Print, face: &[u16; 5]) -> io::Result<()> {
    let [sign, a, b, c, _material] = *face;
    let sign = if sign == 0 { '+' } else { '-' };
    println!(rt; "{sign} {a} {b} {c}")
}

// The first faces of the list, as many as are asked for and are there.
fn print_faces(rt: &impl Print, faces: &[u16], count: usize) -> io::Result<()> {
    let (faces, _) = faces.as_chunks::<5>();
    for face in faces.iter().take(count) {
        print_face(rt, face)?;
    }
    Ok(())
}

// The faces of the boundary of the sweep, from the start of the list, and their count.
fn boundary_of_sweep(faces: &mut [u16]) -> Result<usize, Refusal> {
    // +(0 1 2) and -(1 2 3) on 4 vertices, of material 0: a sign word, a material and d + 1 vertices for each cell
    let cells = [0u16, 0, 0, 1, 2, 1, 0, 1, 2, 3];
    // 2 d + 4 words for each cell
    let mut table = [0u16; 16];
    // d + 1 for each cell: its wings in the order in which its vertices stand above
    let mut uploaded = [0u16; 6];
    wing::wing(2, 4, 2, &cells, &mut table, &mut uploaded)?;
    // h s (d + 1) cells of dimension d + 1 on (h + 1) v vertices, here 6 tetrahedra on 8 vertices
    let mut swept = [0u16; 60];
    sweep::sweep(2, 4, 2, 1, &table, &mut swept)?;
    boundary::faces(3, 8, 6, &swept, faces)
}

fn main(rt: HostRuntime) -> io::Result<()> {
    // at most d + 1 faces of each cell, with a sign word, d vertices and a material each
    let mut faces = [0u16; 120];
    match boundary_of_sweep(&mut faces) {
        Ok(count) => print_faces(&rt, &faces, count),
        Err(refusal) => println!(rt; "refused {}", u8::from(refusal)),
    }
}
