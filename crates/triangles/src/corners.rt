// Numbers 3 and 4: the corners of each triangle.
ghost use Rattle.std.specs.Prelude.{◌≡◌, length};
ghost use Rattle.mesh.specs.Search.{some};
ghost use Rattle.mesh.specs.Verdict.{corner_fault, equal_fault};

use crate::table::TriangleTable;

impl<'a> TriangleTable<'a> {
    // 3: some corner is n or more.
    pub(crate) fn high_corner(self) -> bool
        ensures { result ≡ some (corner_fault self.entry.size.vertices self.entry.corners.now) (length self.entry.corners.now) }
    {
        (0..self.many()).any(|t| self.triangle(t).reaches(self.size.vertices))
    }

    // 4: some triangle has two equal corners.
    pub(crate) fn equal_corners(self) -> bool
        ensures { result ≡ some (equal_fault self.entry.corners.now) (length self.entry.corners.now) }
    {
        (0..self.many()).any(|t| self.triangle(t).repeats())
    }
}
