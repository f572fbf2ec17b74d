// Number 7: the outer triangle.
ghost use Rattle.std.specs.Prelude.{◌≡◌};
ghost use Rattle.mesh.specs.Sides.{third};
ghost use Rattle.mesh.specs.Verdict.{outer_fault};

use crate::table::{Side, TriangleTable};

impl<'a> TriangleTable<'a> {
    // 7: (0,2,1), up to turning round, is not there.
    #[tactic(auto, unfolding(mesh::specs::Verdict::outer_fault), using(crate::proofs::CornerLaws::third_is, crate::proofs::CornerLaws::three_each, crate::proofs::SearchLaws::found_at, crate::proofs::SearchLaws::found_none, mesh::proofs::Positions::third_at, mesh::proofs::Positions::third_none))]
    pub(crate) fn outer_missing(self) -> bool
        ensures { result ≡ outer_fault (third self.entry.corners.now) }
    {
        match self.find(Side { from: 0, to: 2 }) {
            Some(p) => self.triangle(p / 3).third(p) != 1,
            None => true,
        }
    }
}
