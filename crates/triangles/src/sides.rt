// Numbers 5 and 6: each side occurs once, and so does its reverse.
ghost use Rattle.std.specs.Prelude.{◌≡◌, ◌<◌, length};
ghost use Rattle.mesh.specs.Search.{lowest};
ghost use Rattle.mesh.specs.Verdict.{repeat_fault};
ghost use Rattle.triangles.specs.Table.{Pairing};

use crate::table::TriangleTable;

impl<'a> TriangleTable<'a> {
    // The side at position p occurs before.
    #[tactic(auto, using(crate::proofs::SearchLaws::found_before))]
    fn repeats_at(self, p: usize) -> bool
        requires { p < length self.corners.now }
        ensures { result ≡ repeat_fault self.entry.corners.now p }
    {
        self.find(self.side(p)).is_some_and(|first| first < p)
    }

    // 5: the first position whose side occurs before. Both searches over all sides stay functions of their own in the program: laid into
    // their caller, by where they came to lie, they took up to a third more time.
    #[inline(never)]
    pub(crate) fn repeated_side(self) -> Option<usize>
        ensures { result ≡ lowest (repeat_fault self.entry.corners.now) (length self.entry.corners.now) }
    {
        (0..self.corners.len()).find(|p| self.repeats_at(*p))
    }

    // 6: the first position whose reverse does not occur. Where each does `twins` then holds them all.
    #[inline(never)]
    pub(crate) fn pair_sides(self, twins: &mut [u16]) -> Option<usize>
        requires { length twins.old ≡ length self.corners.now }
        ensures { Pairing self.entry.corners.now result twins.new }
    {
        for (p, twin) in twins.iter_mut().enumerate() {
            match self.find(self.side(p).reversed()) {
                Some(q) => *twin = q as u16,
                None => return Some(p),
            }
        }
        None
    }
}
