// A triangle is one value of three corners in an array; side k runs from corner k to the next. Corners are counted round, modulo 3.
ghost use Rattle.std.specs.Prelude.{◌≡◌, ◌+◌, ◌%◌, get_or, leb, eqb};
ghost use Rattle.mesh.specs.Search.{some};

#[derive(Clone, Copy, Debug, PartialEq, Eq)]
pub struct Triangle {
    pub corners: [u16; 3],
}

impl Triangle {
    pub fn corner(self, k: usize) -> u16
        ensures { result ≡ get_or self.corners (k % 3) 0 }
    {
        self.corners[k % 3]
    }

    // The corner after corner k.
    pub fn after(self, k: usize) -> u16
        ensures { result ≡ get_or self.corners ((k % 3 + 1) % 3) 0 }
    {
        self.corner(k % 3 + 1)
    }

    // The third corner of side k, the one that stands before corner k.
    pub fn third(self, k: usize) -> u16
        ensures { result ≡ get_or self.corners ((k % 3 + 2) % 3) 0 }
    {
        self.corner(k % 3 + 2)
    }

    // Some corner is n or more.
    #[tactic(auto, unfolding(mesh::specs::Search::some, mesh::specs::Search::first, mesh::specs::Search::first_from))]
    pub fn reaches(self, n: usize) -> bool
        ensures { result ≡ some (λ k. leb n (get_or self.corners k 0)) 3 }
    {
        // Each of the three named: a search over them would be no shorter.
        let c = self.corners;
        n <= c[0] as usize || n <= c[1] as usize || n <= c[2] as usize
    }

    // Two corners are equal.
    #[tactic(auto, unfolding(mesh::specs::Search::some, mesh::specs::Search::first, mesh::specs::Search::first_from))]
    pub fn repeats(self) -> bool
        ensures { result ≡ some (λ k. eqb (get_or self.corners k 0) (get_or self.corners ((k + 1) % 3) 0)) 3 }
    {
        let c = self.corners;
        c[0] == c[1] || c[1] == c[2] || c[2] == c[0]
    }
}
