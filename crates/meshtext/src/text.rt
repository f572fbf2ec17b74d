// The whole of what `meshlines` answers: a text read, its mesh built, and the array's text or the refusal's line written.
ghost use Rattle.std.specs.Prelude.{◌≡◌};
ghost use Rattle.frames.specs.Put.{Wrote};
ghost use Rattle.meshtext.specs.Answer.{meshlines_of};
ghost use Rattle.meshtext.specs.Shape.{lines_of};

use crate::reading::MeshText;
use crate::writing::put_array;
use array::build;
use frames::frame::{ARRAY_LIMIT, MESH_LIMIT};
use frames::put_refusal;
use tables::limits::{MOST_CORNERS, MOST_EDGES, MOST_REFERENCES, UNUSED};
use tables::refusal::{Refusal, refuse_if};
use tables::size::Size;

// The longest text is that mesh's which is longest, and the longest answer the text of its array.
pub const TEXT_LIMIT: usize = MESH_LIMIT;

pub const OUTPUT_LIMIT: usize = ARRAY_LIMIT;

// Reads the text and builds the array of its mesh into the fronts of the two tables, which are lent whole: how much of them a mesh
// takes is known once its text is read, and there is no heap.
fn build_array(
    text: &[u8],
    references: &mut [u16; MOST_REFERENCES],
    service: &mut [u8; MOST_EDGES],
) -> Result<Size, Refusal>
    ensures { lines_of result references.new service.new ≡ meshlines_of text.now }
{
    refuse_if(TEXT_LIMIT < text.len(), Refusal::TextTooLong)?;
    let mesh = MeshText::of(text)?;
    let size = mesh.size()?;
    let mut corners = [UNUSED; MOST_CORNERS];
    let mut wood = [UNUSED; MOST_EDGES];
    let corners = &mut corners[..size.corners()];
    let wood = &mut wood[..size.edges()];
    mesh.fill_corners(corners);
    mesh.fill_wood(wood);
    build(
        size.vertices,
        corners,
        wood,
        &mut references[..size.references()],
        &mut service[..size.edges()],
    )?;
    Ok(size)
}

// Everything that `meshlines` does between reading and writing. A buffer shorter than the answer gives 2 and stays unchanged.
pub fn mesh_lines(text: &[u8], out: &mut [u8]) -> Result<usize, Refusal>
    ensures { Wrote (meshlines_of text.now) out.old result out.new }
{
    let mut references = [UNUSED; MOST_REFERENCES];
    let mut service = [0u8; MOST_EDGES];
    match build_array(text, &mut references, &mut service) {
        Ok(size) => put_array(
            out,
            size,
            &references[..size.references()],
            &service[..size.edges()],
        ),
        Err(refusal) => put_refusal(out, refusal.number()),
    }
}
