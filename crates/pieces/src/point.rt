// Point put to every kind of float; a coordinate is printed by its bits.
use garment::Coordinates;
use std::io;

// The bits of a coordinate in hexadecimal; a NaN has none.
fn bits(rt: &impl Print, x: f32) -> io::Result<()> {
    if x.is_nan() {
        return rt.print(" NaN");
    }
    let pattern = x.to_bits();
    print!(rt; " {pattern:08x}")
}

fn coordinates(rt: &impl Print, at: Coordinates) -> io::Result<()> {
    bits(rt, at.x)?;
    bits(rt, at.y)?;
    bits(rt, at.z)
}

fn ask(rt: &impl Print, n: usize, table: &[f32], v: usize) -> io::Result<()> {
    print!(rt; "point of vertex {v} of {n}")?;
    match garment::point(n, table, v) {
        Ok(at) => coordinates(rt, at)?,
        Err(refusal) => print!(rt; " refused {refusal}")?,
    }
    rt.print("\n")
}

// Vertex 0 has a normal number, minus zero and a subnormal; 1, 2 and 3 have an infinity, its negative and a NaN. Then 15, 1 and 2.
fn ask_all(rt: &impl Print, table: &[f32]) -> io::Result<()> {
    for v in 0..5 {
        ask(rt, 4, table, v)?;
    }
    ask(rt, 2, table, 0)?;
    ask(rt, 3, table, 0)
}

pub(crate) fn run(rt: &impl Print) -> io::Result<()> {
    let infinity = f32::INFINITY;
    let mut table = [0.0f32; 12];
    table[0] = 1.5;
    table[1] = -0.0;
    table[2] = 1.0e-40;
    table[3] = infinity;
    table[7] = -infinity;
    table[11] = infinity - infinity;
    ask_all(rt, &table)
}
