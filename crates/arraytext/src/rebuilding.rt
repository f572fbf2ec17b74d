// What `rebuildlines` writes: the mesh that an array's references tell of, as house text.
ghost use Rattle.std.specs.Prelude.{◌≡◌, ◌-◌, ◌*◌, ◌/◌, ◌≤◌, length};
ghost use Rattle.mesh.specs.Limits.{triangles_length, wood_length};
ghost use Rattle.frames.specs.Frames.{width, table_frames, house_text};
ghost use Rattle.frames.specs.Lines.{frame_length, text_limit};
ghost use Rattle.frames.specs.Put.{WroteInRoom, Stored};
ghost use Rattle.arraytext.specs.ArrayText.{references_in};
ghost use Rattle.arraytext.specs.RebuildLines.{rebuild_text, rebuild_lines_of};

use crate::lines::put_lines;
use crate::reading::ArrayText;
use frames::frame::{HEAD_LENGTH, MESH_LIMIT, TRIANGLE_CODE, VERTEX_CODE};
use frames::{put_head, put_refusal, put_triple};
use rebuild::rebuilder::rebuild;
use tables::limits::{MOST_CORNERS, MOST_EDGES, MOST_REFERENCES, UNUSED};
use tables::refusal::Refusal;
use tables::size::Size;

// A frame for each three numbers of a table. The code is a byte, as `put_triple` takes it.
fn put_table(part: &mut [u8], code: u8, table: &[u16]) -> usize
    requires { length table.now / 3 * frame_length width ≤ length part.old }
    ensures { Stored (length table.now / 3 * frame_length width) (table_frames width code table.now) 0 part.old result part.new }
{
    let mut at = 0;
    for triple in table.chunks_exact(3) {
        at += put_triple(&mut part[at..], code, triple[0], triple[1], triple[2]).unwrap();
    }
    at
}

fn put_mesh(out: &mut [u8], size: Size, triangles: &[u16], targets: &[u16]) -> usize
    requires corners { length triangles.now ≡ triangles_length size.vertices }
    requires inner { length targets.now ≡ wood_length size.vertices - 9 }
    requires room { text_limit ≤ length out.old }
    ensures { Stored text_limit (house_text width size.vertices triangles.now targets.now) 0 out.old result out.new }
{
    // HEAD_LENGTH below, not the count that `put_head` returns: tried, and the proof did not close.
    put_head(out, size.vertices).unwrap();
    let vertices = HEAD_LENGTH + put_table(&mut out[HEAD_LENGTH..], TRIANGLE_CODE, triangles);
    vertices + put_table(&mut out[vertices..], VERTEX_CODE, targets)
}

// Rebuilds from the references alone, then writes the mesh or the refusal.
fn rebuild_array(text: ArrayText, out: &mut [u8]) -> Result<usize, Refusal>
    requires { text_limit ≤ length out.old }
    ensures { WroteInRoom text_limit (rebuild_text text.entry.size.vertices (references_in text.entry.size.vertices text.entry.text.now)) out.old result out.new }
{
    let size = text.size;
    let mut references = [UNUSED; MOST_REFERENCES];
    let references = &mut references[..size.references()];
    text.read_references(references);
    let mut wood = [UNUSED; MOST_EDGES];
    let wood = &mut wood[..size.edges()];
    let mut triangles = [UNUSED; MOST_CORNERS];
    let triangles = &mut triangles[..size.corners()];
    match rebuild(size.vertices, references, wood, triangles) {
        Ok(()) => Ok(put_mesh(out, size, triangles, &wood[9..])),
        Err(refusal) => put_refusal(out, refusal.number()),
    }
}

// The whole of what `rebuildlines` writes for a text; refused where the buffer has no room for the longest output.
#[tactic(auto, unfolding(crate::specs::RebuildLines::rebuild_lines_of))]
pub fn rebuild_lines(text: &[u8], out: &mut [u8]) -> Result<usize, Refusal>
    ensures { WroteInRoom text_limit (rebuild_lines_of text.now) out.old result out.new }
{
    put_lines(text, out, MESH_LIMIT, rebuild_array)
}
