// The text of a built array, written frame by frame: each frame's part of the buffer begins where the last frame ended.
ghost use Rattle.std.specs.Prelude.{◌≡◌, ◌+◌, ◌*◌, ◌<◌, ◌≤◌, length};
ghost use Rattle.mesh.specs.Limits.{references_length, service_length};
ghost use Rattle.frames.specs.Frames.{width, edge_line, array_text};
ghost use Rattle.frames.specs.Lines.{edge_length};
ghost use Rattle.frames.specs.Put.{Wrote};
ghost use Rattle.meshtext.specs.Shape.{Placed};

use frames::frame::{EDGE_LENGTH, HEAD_LENGTH};
use frames::{put_edge, put_head};
use tables::edge::used;
use tables::refusal::Refusal;
use tables::size::Size;

// Writes the frame of edge j at a place of the buffer, nothing where j is unused, and answers where the next frame begins. It takes the
// place, so that its promise is about the whole buffer, which the loop's is too; `put_edge` is lent the part.
fn put_edge_at(
    out: &mut [u8],
    at: usize,
    j: usize,
    references: &[u16],
    service: &[u8],
) -> Result<usize, Refusal>
    requires { (at + length (edge_line width references.now service.now j) ≤ length out.old) × (2 * j + 1 < length references.now) × (j < length service.now) }
    ensures { Placed (edge_length width) (edge_line width references.now service.now j) at out.old result out.new }
{
    if !used(j) {
        return Ok(at);
    }
    let length = put_edge(
        &mut out[at..],
        j,
        references[2 * j],
        references[2 * j + 1],
        service[j],
    )?;
    Ok(at + length)
}

// The whole text: the head, and a frame for each edge; six indices of edges are unused.
pub(crate) fn put_array(
    out: &mut [u8],
    size: Size,
    references: &[u16],
    service: &[u8],
) -> Result<usize, Refusal>
    requires { (length references.now ≡ references_length size.vertices) × (length service.now ≡ service_length size.vertices) }
    ensures { Wrote (array_text size.vertices references.now service.now) out.old result out.new }
{
    if out.len() < HEAD_LENGTH + EDGE_LENGTH * (size.edges() - 6) {
        return Err(Refusal::Length);
    }
    let mut at = put_head(out, size.vertices)?;
    for j in 0..size.edges() {
        at = put_edge_at(out, at, j, references, service)?;
    }
    Ok(at)
}
