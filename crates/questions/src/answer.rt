// What the questions answer where they are not refused; the Fronts, the Backs and Edge answer an edge, Source a vertex.
ghost use Rattle.std.specs.Prelude.{◌≡◌, ◌&&◌};
ghost use Rattle.std.specs.Float.Ieee.Scale.{finite};

// Target: the vertex, and how many LeftFronts were read to find it.
#[derive(Clone, Copy, Debug, PartialEq, Eq)]
pub struct Reached {
    pub vertex: u16,
    pub reads: u16,
}

// Point: the three coordinates, bit for bit.
#[derive(Clone, Copy, Debug, PartialEq)]
pub struct Coordinates {
    pub x: f32,
    pub y: f32,
    pub z: f32,
}

impl Coordinates {
    #[tactic(auto, using(crate::proofs::FiniteLaws::finite_same))]
    pub(crate) fn are_finite(self) -> bool
        ensures { result ≡ (finite self.x && (finite self.y && finite self.z)) }
    {
        self.x.is_finite() && self.y.is_finite() && self.z.is_finite()
    }
}
