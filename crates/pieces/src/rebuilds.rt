// Rebuilds into marked tables, so that what is printed comes from the rebuild.
use crate::say;
use crate::table::MARK;
use std::io;

pub(crate) fn rebuilt(
    rt: &impl Print,
    name: &str,
    n: usize,
    references: &[u16],
    wood: &mut [u16],
    triangles: &mut [u16],
) -> io::Result<()> {
    wood.fill(MARK);
    triangles.fill(MARK);
    let outcome = garment::rebuild(n, references, wood, triangles);
    say::outcome(rt, name, "rebuild", outcome)?;
    say::mesh(rt, name, triangles, wood)
}

// Tables for four vertices, and references that no mesh has.
fn refused(rt: &impl Print, name: &str, n: usize) -> io::Result<()> {
    let references = [0u16; 24];
    let mut wood = [0u16; 12];
    let mut triangles = [0u16; 12];
    rebuilt(rt, name, n, &references, &mut wood, &mut triangles)
}

// 1 and 2 leave the marks; 18 fills both tables with 65,535.
pub(crate) fn run(rt: &impl Print) -> io::Result<()> {
    refused(rt, "two vertices:", 2)?;
    refused(rt, "three vertices:", 3)?;
    refused(rt, "no mesh:", 4)
}
