// The check of a triangle table, number by number, each over the whole table before the next.
ghost use Rattle.std.specs.Prelude.{◌≡◌, length};
ghost use Rattle.triangles.specs.Table.{TableChecked};
ghost use Rattle.triangles.specs.Checked.{TrianglesChecked};

use crate::table::TriangleTable;
use tables::refusal::{Refusal, refuse_if};
use tables::size::Size;
use tables::table::mark_all;

impl<'a> TriangleTable<'a> {
    // Numbers 3 to 8. Where none applies `twins` holds the position of each side's reverse.
    fn verdict(self, twins: &mut [u16]) -> Result<(), Refusal>
        requires { length twins.old ≡ length self.corners.now }
        ensures { TableChecked self.entry.size.vertices self.entry.corners.now result twins.new }
    {
        refuse_if(self.high_corner(), Refusal::CornerTooHigh)?;
        refuse_if(self.equal_corners(), Refusal::CornersEqual)?;
        refuse_if(self.repeated_side().is_some(), Refusal::SideTwice)?;
        refuse_if(self.pair_sides(twins).is_some(), Refusal::SideAlone)?;
        refuse_if(self.outer_missing(), Refusal::OuterMissing)?;
        refuse_if(self.turns_broken(twins), Refusal::TurnIncomplete)
    }
}

// Numbers 1 to 8 of a triangle table. Done: `twins` holds the position of each side's reverse. Refused: by 1 and 2 it is
// unchanged, by 3 to 8 it is filled with the mark, since some reverses may stand there already.
pub fn check_triangles(n: usize, triangles: &[u16], twins: &mut [u16]) -> Result<(), Refusal>
    ensures { TrianglesChecked n triangles.now twins.old result twins.new }
{
    let size = Size::of(n)?;
    refuse_if(triangles.len() != size.corners(), Refusal::Length)?;
    refuse_if(twins.len() != size.corners(), Refusal::Length)?;
    let table = TriangleTable {
        size,
        corners: triangles,
    };
    let verdict = table.verdict(twins);
    if verdict.is_err() {
        mark_all(twins);
    }
    verdict
}
