// meshlines: reads a mesh as house text from standard input and writes its array, or the number of its refusal, to standard output.
#![tactic(auto)]

use meshtext::text::{OUTPUT_LIMIT, TEXT_LIMIT};
use std::io;

// The three programs on text have a `main` each: a shared one would be public and take the answer as a closure, and so require that it
// may be called, which no public function does; it would save five lines of ten.
fn main(rt: HostRuntime) -> io::Result<()> {
    // One byte more than the longest text, so that a longer one shows.
    let mut text = [0u8; TEXT_LIMIT + 1];
    let read = streams::read_full(&mut rt.stdin(), &mut text)?;
    let mut out = [0u8; OUTPUT_LIMIT];
    let put = meshtext::mesh_lines(&text[..read], &mut out);
    // No answer is longer than the buffer, so it is never refused.
    if let Ok(length) = put {
        rt.write_all(&out[..length])?;
    }
    Ok(())
}
