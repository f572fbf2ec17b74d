// rebuildlines: reads an array's text from standard input, built or torn, and writes the mesh that its references tell of as house text.
#![tactic(auto)]

use arraytext::{ARRAY_LIMIT, MESH_LIMIT};
use std::io;

// The three programs on text have a `main` each: a shared one would be public and take the answer as a closure, and so require that it
// may be called, which no public function does; it would save five lines of ten.
fn main(rt: HostRuntime) -> io::Result<()> {
    // One byte more than the longest array's text, so that a longer one shows.
    let mut text = [0u8; ARRAY_LIMIT + 1];
    let read = streams::read_full(&mut rt.stdin(), &mut text)?;
    let mut out = [0u8; MESH_LIMIT];
    let put = arraytext::rebuild_lines(&text[..read], &mut out);
    // The buffer has room for the longest output, so it is never refused.
    if let Ok(length) = put {
        rt.write_all(&out[..length])?;
    }
    Ok(())
}
