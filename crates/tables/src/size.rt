// A number of vertices that a mesh may have, and the lengths that it asks of each table.
ghost use Rattle.std.specs.Prelude.{◌≡◌, cond, IfOk};
ghost use Rattle.mesh.specs.Limits.{InRange, out_of_range, triangles_length, wood_length, references_length};
ghost use Rattle.tables.specs.Refusal.{number_met};

use crate::limits::out_of_range;
use crate::refusal::Refusal;

#[derive(Clone, Copy)]
pub struct Size {
    pub vertices: usize,
    pub ghost in_range: { InRange vertices },
}

impl Size {
    // Number 1.
    pub fn of(n: usize) -> Result<Size, Refusal>
        ensures range { number_met result ≡ cond (out_of_range n) 1 0 }
        ensures ok { IfOk result (λ s. s.vertices ≡ n) }
    {
        if out_of_range(n) {
            return Err(Refusal::VertexCount);
        }
        Ok(Size { vertices: n })
    }

    // The corners of all triangles.
    pub fn corners(self) -> usize
        ensures { result ≡ triangles_length self.vertices }
    {
        6 * self.vertices - 12
    }

    // The indices of edges, and with them the targets of a wood and the service bytes.
    pub fn edges(self) -> usize
        ensures { result ≡ wood_length self.vertices }
    {
        3 * self.vertices
    }

    pub fn references(self) -> usize
        ensures { result ≡ references_length self.vertices }
    {
        6 * self.vertices
    }
}
