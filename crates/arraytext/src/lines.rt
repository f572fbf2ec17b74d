// What is written for a text, by whatever its array is made into.
ghost use Rattle.std.specs.Prelude.{ℕ, List, ◌≤◌, length};
ghost use Rattle.frames.specs.Put.{WroteInRoom};
ghost use Rattle.arraytext.specs.ArrayText.{told, lines_for};

use crate::reading::ArrayText;
use frames::put_refusal;
use tables::refusal::{Refusal, refuse_if};

// Into a buffer with room for the longest output: what `write` makes of the text's array, or the line of the text's refusal.
pub(crate) fn put_lines<F: FnOnce(ArrayText, &mut [u8]) -> Result<usize, Refusal>>(
    text: &[u8],
    out: &mut [u8],
    most: usize,
    write: F,
) -> Result<usize, Refusal>
    ghost lines: { ℕ → List ℕ → List ℕ → List ℕ }
    requires refusal { 5 ≤ most }
    requires may { (array : _) (part : _) → most ≤ length part.now → F.pre write array part }
    requires writes { (array : _) (part : _) (r : _) (left : _) → most ≤ length part.now → F.post write array part r left
        → WroteInRoom most (told lines array.size.vertices array.text.now) part.now r left.now }
    ensures { WroteInRoom most (lines_for lines text.now) out.old result out.new }
{
    refuse_if(out.len() < most, Refusal::Length)?;
    match ArrayText::of(text) {
        Ok(array) => write(array, out),
        Err(refusal) => put_refusal(out, refusal.number()),
    }
}
