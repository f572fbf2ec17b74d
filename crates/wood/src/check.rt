// The check of a whole mesh: its sizes, its triangles, then the wood over them.
ghost use Rattle.wood.specs.Checked.{MeshSizes, MeshJudged, MeshChecked};

use crate::positions::fill_positions;
use crate::verdict::check_wood;
use tables::refusal::{Refusal, refuse_if};
use tables::sided::Sided;
use tables::size::Size;
use tables::table::mark_all;
use triangles::check_triangles;

// Numbers 3 to 13. Where none applies both outputs are filled; the wood is asked only where the triangles are right. The tables are no
// `Sided` yet: it says that the two outputs are filled.
fn judge(
    size: Size,
    triangles: &[u16],
    wood: &[u16],
    twins: &mut [u16],
    positions: &mut [u16],
) -> Result<(), Refusal>
    requires { MeshSizes size.vertices triangles.now wood.now twins.old positions.old }
    ensures { MeshJudged size.vertices triangles.now wood.now result twins.new positions.new }
{
    check_triangles(size.vertices, triangles, twins)?;
    fill_positions(size, triangles, wood, positions);
    check_wood(&Sided {
        size,
        triangles,
        wood,
        twins,
        positions,
    })
}

// Numbers 1 to 13 of a mesh. Ok: `twins` holds the position of each side's reverse, `positions` that of each edge's side. Refused: by 1
// and 2 both are unchanged, by 3 to 13 both are filled with the mark, since part of them may be written already.
pub fn check_mesh(
    n: usize,
    triangles: &[u16],
    wood: &[u16],
    twins: &mut [u16],
    positions: &mut [u16],
) -> Result<(), Refusal>
    ensures { MeshChecked n triangles.now wood.now twins.old positions.old result twins.new positions.new }
{
    let size = Size::of(n)?;
    // Number 2, by the lengths of all four tables.
    let lengths = [triangles.len(), wood.len(), twins.len(), positions.len()];
    let asked = [size.corners(), size.edges(), size.corners(), size.edges()];
    refuse_if(lengths != asked, Refusal::Length)?;
    let verdict = judge(size, triangles, wood, twins, positions);
    if verdict.is_err() {
        mark_all(twins);
        mark_all(positions);
    }
    verdict
}
