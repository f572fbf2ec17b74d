// The limits, each named once; every other one is derived from them here.
ghost use Rattle.std.specs.Prelude.{◌≡◌};
ghost use Rattle.mesh.specs.Limits.{out_of_range};

pub const FEWEST_VERTICES: usize = 3;

pub const MOST_VERTICES: usize = 1024;

// What unused indices and places hold.
pub const UNUSED: u16 = 65535;

// The highest service byte that is not torn.
pub const MOST_SERVICE: u8 = 3;

// The lengths of the longest tables: corners of triangles, edges of a wood and their service bytes, references.
pub const MOST_CORNERS: usize = 6 * MOST_VERTICES - 12;

pub const MOST_EDGES: usize = 3 * MOST_VERTICES;

pub const MOST_REFERENCES: usize = 6 * MOST_VERTICES;

// Number 1.
#[tactic(auto, unfolding(mesh::specs::Limits::out_of_range))]
pub fn out_of_range(n: usize) -> bool
    ensures { result ≡ out_of_range n }
{
    n < FEWEST_VERTICES || MOST_VERTICES < n
}
