// What a target may be: number 9, the anchors' nine indices and the range; number 11, the anchor rule.
ghost use Rattle.std.specs.Prelude.{◌≡◌, ◌*◌, length};
ghost use Rattle.mesh.specs.Search.{some};
ghost use Rattle.mesh.specs.Limits.{wood_length};
ghost use Rattle.mesh.specs.Verdict.{target_fault, wood_fault, anchor_fault};

use tables::edge::ANCHOR_TARGETS;
use tables::size::Size;
use tables::table::at;

// A wood table of the length that its size asks. Crates triangles and rebuild have values like it of other lengths: one type for all
// would be public and take the length as a parameter that only proofs read.
#[derive(Clone, Copy)]
pub(crate) struct Wood<'a> {
    pub(crate) size: Size,
    pub(crate) targets: &'a [u16],
    ghost whole: { length targets.now ≡ wood_length size.vertices },
}

impl Wood<'_> {
    // The anchors' own indices are tested apart.
    fn target_too_high(&self) -> bool
        ensures { result ≡ some (target_fault self.now.size.vertices self.now.targets.now) (3 * self.now.size.vertices) }
    {
        (0..self.size.edges()).any(|e| 9 <= e && self.size.vertices <= at(self.targets, e) as usize)
    }

    // Number 9.
    pub(crate) fn target_wrong(&self) -> bool
        ensures { result ≡ wood_fault self.now.size.vertices self.now.targets.now }
    {
        !self.targets.starts_with(&ANCHOR_TARGETS) || self.target_too_high()
    }

    // Number 11: an edge of an inner vertex ends at an anchor of another number than its colour.
    pub(crate) fn anchor_rule_broken(&self) -> bool
        ensures { result ≡ some (anchor_fault self.now.targets.now) (3 * self.now.size.vertices) }
    {
        (0..self.size.edges()).any(|e| {
            let v = at(self.targets, e) as usize;
            9 <= e && v < 3 && e % 3 != v
        })
    }
}
