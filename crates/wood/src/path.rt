// Number 13: the path rule. A walk along one colour marks each vertex that it passes with the one that it began at, and stops at a mark:
// an earlier walk's, which ended at the anchor, or its own, and then it goes round for ever. So no edge is followed twice.
ghost use Rattle.std.specs.Prelude.{◌≡◌, ◌<◌};
ghost use Rattle.mesh.specs.Search.{some};
ghost use Rattle.mesh.specs.Verdict.{path_fault};
ghost use Rattle.wood.specs.Paths.{Inside, Marked, Walked, colour_fault};

use crate::targets::Wood;
use tables::limits::MOST_VERTICES;
use tables::table::at;

// A wood whose inner vertices' edges end at vertices: what 9 leaves.
#[derive(Clone, Copy)]
pub(crate) struct Paths<'a> {
    pub(crate) wood: Wood<'a>,
    pub(crate) ghost inside: { Inside wood.size.vertices wood.targets.now },
}

impl Paths<'_> {
    // Following colour c from v ends at anchor c: at the anchor itself, or at the mark of an earlier walk.
    fn ends(&self, c: usize, v: usize, marks: &mut [Option<u16>]) -> bool
        requires { (c < 3) × (v < self.now.wood.size.vertices) × Marked self.now.wood.size.vertices self.now.wood.targets.now c v marks.old }
        ensures { Walked self.now.wood.size.vertices self.now.wood.targets.now c v result marks.new }
    {
        let mut u = v;
        for _ in 0..self.wood.size.vertices {
            if u < 3 {
                return u == c;
            }
            if let Some(mark) = marks[u] {
                return mark as usize != v;
            }
            marks[u] = Some(v as u16);
            u = at(self.wood.targets, 3 * u + c) as usize;
        }
        u == c
    }

    // From some inner vertex colour c does not end at anchor c. A loop and not `any`, since each walk writes the marks: of a closure that
    // writes what it captures the kit's methods say nothing.
    fn colour_broken(&self, c: usize) -> bool
        requires { c < 3 }
        ensures { result ≡ some (colour_fault self.now.wood.size.vertices self.now.wood.targets.now c) self.now.wood.size.vertices }
    {
        let mut marks = [None; MOST_VERTICES];
        for v in 3..self.wood.size.vertices {
            if !self.ends(c, v, &mut marks) {
                return true;
            }
        }
        false
    }

    // Number 13.
    pub(crate) fn broken(&self) -> bool
        ensures { result ≡ some (path_fault self.now.wood.size.vertices self.now.wood.targets.now) self.now.wood.size.vertices }
    {
        (0..3).any(|c| self.colour_broken(c))
    }
}
