// answers: reads an array's text from standard input, built or torn, and writes for each index and each vertex what each question answers.
#![tactic(auto)]

use arraytext::{ANSWERS_LIMIT, ARRAY_LIMIT};
use std::io;

// The three programs on text have a `main` each: a shared one would be public and take the answer as a closure, and so require that it
// may be called, which no public function does; it would save five lines of ten.
fn main(rt: HostRuntime) -> io::Result<()> {
    // One byte more than the longest array's text, so that a longer one shows.
    let mut text = [0u8; ARRAY_LIMIT + 1];
    let read = streams::read_full(&mut rt.stdin(), &mut text)?;
    let mut out = [0u8; ANSWERS_LIMIT];
    let put = arraytext::answer_lines(&text[..read], &mut out);
    // The buffer has room for the longest output, so it is never refused.
    if let Ok(length) = put {
        rt.write_all(&out[..length])?;
    }
    Ok(())
}
