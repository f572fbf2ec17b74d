// Whether a line stands at a place of a text.
ghost use Rattle.std.specs.Prelude.{◌≡◌, ◌+◌, ◌≤◌, length};
ghost use Rattle.frames.specs.Lines.{is_line};

use crate::digit::{digit, digits_at};
use crate::frame::LINE_FEED;

#[tactic(auto, unfolding(crate::specs::Lines::is_line))]
fn line_there(text: &[u8], p: usize, code: u8, m: usize) -> bool
    requires { p + 3 + m ≤ length text.now }
    ensures { result ≡ is_line code m text.now p }
{
    text[p] == digit(code as usize / 16)
        && text[p + 1] == digit(code as usize % 16)
        && digits_at(text, p + 2, m)
        && text[p + 2 + m] == LINE_FEED
}

// A line of that code whose body has m digits stands at place p. No line reaches past the end of the text. The
// code may be any byte.
#[tactic(auto, using(crate::proofs::LineLaws::line_outside))]
pub fn is_line(text: &[u8], p: usize, code: u8, m: usize) -> bool
    ensures { result ≡ is_line code m text.now p }
{
    p <= text.len()
        && 3 <= text.len() - p
        && m <= text.len() - p - 3
        && line_there(text, p, code, m)
}
