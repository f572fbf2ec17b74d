// Number 8: one turn round each vertex meets all its triangles. A turn of fewer steps than sides leave the vertex does not, so the
// sides are counted, and each side is passed a fixed number of times.
ghost use Rattle.std.specs.Prelude.{◌≡◌, ◌≤◌, length};
ghost use Rattle.mesh.specs.Search.{some};
ghost use Rattle.mesh.specs.Sides.{third};
ghost use Rattle.mesh.specs.Paired.{Paired};
ghost use Rattle.mesh.specs.Verdict.{turn_fault};
ghost use Rattle.tables.specs.Checked.{twins_of};
ghost use Rattle.tables.specs.Turning.{turn_in_table};
ghost use Rattle.triangles.specs.Turns.{back_early, turn_broken, Tally, Untallied};

use crate::table::TriangleTable;
use tables::limits::MOST_VERTICES;
use tables::side::turn_at;

// How many sides leave a vertex, and one of them where there is one. A degree of 0 says that there is none; an `Option` would say it
// again beside the count.
#[derive(Clone, Copy)]
struct Spokes {
    start: u16,
    degree: u16,
}

impl Spokes {
    // No side, or a turn from the one is back before it met all.
    fn turn_broken(self, twins: &[u16]) -> bool
        ensures { result ≡ turn_broken twins.now self.start self.degree }
    {
        self.degree == 0 || back_early(twins, self.start, self.degree)
    }
}

// A turn from the side at p is back in fewer than d steps.
fn back_early(twins: &[u16], p: u16, d: u16) -> bool
    ensures { result ≡ back_early (turn_in_table twins.now) p d }
{
    let mut q = p;
    for _ in 1..d {
        q = turn_at(twins, q);
        if q == p {
            return true;
        }
    }
    false
}

impl<'a> TriangleTable<'a> {
    // How many sides leave each vertex, and one of them.
    #[tactic(auto, using(crate::proofs::TallyLaws::tally_none, crate::proofs::TallyLaws::tally_small, crate::proofs::TallyLaws::tally_more, mesh::proofs::Lists::get_d_any))]
    fn tally(self, spokes: &mut [Spokes])
        requires { Untallied self.corners.now spokes.old }
        ensures { Tally self.entry.corners.now (length self.entry.corners.now) spokes.new }
    {
        for (p, corner) in self.corners.iter().enumerate() {
            let at_corner = &mut spokes[*corner as usize];
            at_corner.start = p as u16;
            at_corner.degree += 1;
        }
    }

    // 8: some vertex is in no triangle, or a turn round it does not meet all its triangles.
    pub(crate) fn turns_broken(self, twins: &[u16]) -> bool
        requires { Paired self.size.vertices self.corners.now × (twins.now ≡ twins_of self.corners.now) }
        ensures { result ≡ some (turn_fault self.entry.size.vertices (third self.entry.corners.now)) self.entry.size.vertices }
    {
        // All zero, so that one fill makes the table; a start counts only beside its degree.
        let none = Spokes {
            start: 0,
            degree: 0,
        };
        let mut spokes = [none; MOST_VERTICES];
        self.tally(&mut spokes);
        spokes[..self.size.vertices]
            .iter()
            .any(|at_vertex| at_vertex.turn_broken(twins))
    }
}
