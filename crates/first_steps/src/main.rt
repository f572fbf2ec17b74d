// first_steps: the garment array in one page. Builds the array of the four-vertex piece, asks about one edge, and rebuilds the mesh.
#![tactic(auto)]

use garment::{Refusal, UNUSED};
use std::io;

const N: usize = 4;

fn say_edge(rt: &impl Print, words: &str, answer: Result<u16, Refusal>) -> io::Result<()> {
    match answer {
        Ok(edge) => println!(rt; "{words}{edge}"),
        Err(refusal) => println!(rt; "refused: {refusal}"),
    }
}

// Edge 9 leaves vertex 3 with colour 0. Nothing is searched: each answer takes a few reads of the array.
fn ask(rt: &impl Print, references: &[u16], service: &[u8]) -> io::Result<()> {
    let front = garment::left_front(N, references, 9);
    say_edge(rt, "LeftFront of 9 is edge ", front)?;
    let back = garment::left_back(N, references, service, 9);
    say_edge(rt, "LeftBack of 9 is edge ", back)?;
    match garment::target(N, references, 9) {
        Ok(reached) => {
            let vertex = reached.vertex;
            let reads = reached.reads;
            println!(rt; "Target of 9 is vertex {vertex}")?;
            println!(rt; "reads: {reads}")
        }
        Err(refusal) => println!(rt; "refused: {refusal}"),
    }
}

// From the references alone: the wood, and the triangles in an order of their own.
fn again(rt: &impl Print, references: &[u16]) -> io::Result<()> {
    let mut wood = [UNUSED; 3 * N];
    let mut triangles = [UNUSED; 6 * N - 12];
    match garment::rebuild(N, references, &mut wood, &mut triangles) {
        Ok(()) => {
            let end = wood[9];
            let corner = triangles[0];
            println!(rt; "rebuilt: edge 9 ends at vertex {end}")?;
            println!(rt; "rebuilt: the first corner is vertex {corner}")
        }
        Err(refusal) => println!(rt; "refused: {refusal}"),
    }
}

fn main(rt: HostRuntime) -> io::Result<()> {
    let triangles = [0u16, 2, 1, 0, 1, 3, 1, 2, 3, 2, 0, 3];
    let wood = [
        UNUSED, UNUSED, UNUSED, 0, UNUSED, UNUSED, 0, 1, UNUSED, 0, 1, 2,
    ];
    let mut references = [UNUSED; 6 * N];
    let mut service = [0u8; 3 * N];
    match garment::build(N, &triangles, &wood, &mut references, &mut service) {
        Ok(()) => {
            ask(&rt, &references, &service)?;
            again(&rt, &references)
        }
        Err(refusal) => println!(rt; "refused: {refusal}"),
    }
}
