// A triangle table of the length that its number of vertices asks, read as triangles and as sides. Position 3t + k stands for the side
// from corner k of triangle t to the next.
ghost use Rattle.std.specs.Prelude.{◌≡◌, ◌<◌, ◌+◌, ◌*◌, ◌≤◌, ◌/◌, length};
ghost use Rattle.mesh.specs.Limits.{triangles_length};
ghost use Rattle.mesh.specs.Sides.{from, to};
ghost use Rattle.tables.specs.Corners.{corners_of};
ghost use Rattle.triangles.specs.Table.{side_found};

use tables::size::Size;
use tables::triangle::Triangle;

#[derive(Clone, Copy)]
pub(crate) struct TriangleTable<'a> {
    pub(crate) size: Size,
    pub(crate) corners: &'a [u16],
    pub(crate) ghost whole: { length corners.now ≡ triangles_length size.vertices },
}

// A directed side, by its two ends.
#[derive(Clone, Copy)]
pub(crate) struct Side {
    pub(crate) from: u16,
    pub(crate) to: u16,
}

impl Side {
    pub(crate) fn reversed(self) -> Side
        ensures { (result.from ≡ self.to) × (result.to ≡ self.from) }
    {
        Side {
            from: self.to,
            to: self.from,
        }
    }
}

impl<'a> TriangleTable<'a> {
    // How many triangles.
    pub(crate) fn many(self) -> usize
        ensures { result ≡ length self.entry.corners.now / 3 }
    {
        self.corners.len() / 3
    }

    // Triangle t.
    pub(crate) fn triangle(self, t: usize) -> Triangle
        requires { 3 * t + 3 ≤ length self.corners.now }
        ensures { result.corners ≡ corners_of self.entry.corners.now t }
    {
        let p = 3 * t;
        Triangle {
            corners: [self.corners[p], self.corners[p + 1], self.corners[p + 2]],
        }
    }

    // The side at position p.
    #[tactic(auto, using(crate::proofs::CornerLaws::corner_is, crate::proofs::CornerLaws::after_is))]
    pub(crate) fn side(self, p: usize) -> Side
        requires { p < length self.corners.now }
        ensures { (result.from ≡ from self.entry.corners.now p) × (result.to ≡ to self.entry.corners.now p) }
    {
        let triangle = self.triangle(p / 3);
        Side {
            from: triangle.corner(p),
            to: triangle.after(p),
        }
    }

    // The first position of a side. Nested loops, left by the outer one's label at the first match: the form that is asked for by name.
    pub(crate) fn find(self, side: Side) -> Option<usize>
        ensures { result ≡ side_found self.entry.corners.now side.from side.to }
    {
        let mut found = None;
        'triangles: for t in 0..self.many() {
            let triangle = self.triangle(t);
            for k in 0..3 {
                if triangle.corner(k) == side.from && triangle.after(k) == side.to {
                    found = Some(3 * t + k);
                    break 'triangles;
                }
            }
        }
        found
    }
}
