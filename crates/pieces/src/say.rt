// What is printed: a name, then what the engine found, one line for each. The handle and the name are taken apart: a struct of both would
// need the handle's type as a parameter and be made anew for each name.
use garment::{Reached, Refusal};
use std::io;

// 0 where a build or a rebuild is done, else the refusal's number.
pub(crate) fn outcome(
    rt: &impl Print,
    name: &str,
    what: &str,
    outcome: Result<(), Refusal>,
) -> io::Result<()> {
    match outcome {
        Ok(()) => println!(rt; "{name} {what} 0"),
        Err(refusal) => println!(rt; "{name} {what} {refusal}"),
    }
}

pub(crate) fn target(
    rt: &impl Print,
    name: &str,
    answer: Result<Reached, Refusal>,
) -> io::Result<()> {
    match answer {
        Ok(reached) => {
            let vertex = reached.vertex;
            let reads = reached.reads;
            println!(rt; "{name} target {vertex} reads {reads}")
        }
        Err(refusal) => println!(rt; "{name} refused {refusal}"),
    }
}

pub(crate) fn edge(
    rt: &impl Print,
    name: &str,
    what: &str,
    j: usize,
    answer: Result<u16, Refusal>,
) -> io::Result<()> {
    match answer {
        Ok(edge) => println!(rt; "{name} {what}({j}) {edge}"),
        Err(refusal) => println!(rt; "{name} {what}({j}) refused {refusal}"),
    }
}

fn numbers(rt: &impl Print, table: &[u16]) -> io::Result<()> {
    for x in table {
        print!(rt; " {x}")?;
    }
    Ok(())
}

pub(crate) fn mesh(rt: &impl Print, name: &str, triangles: &[u16], wood: &[u16]) -> io::Result<()> {
    print!(rt; "{name} rebuild triangles")?;
    numbers(rt, triangles)?;
    rt.print(" wood")?;
    numbers(rt, wood)?;
    rt.print("\n")
}
