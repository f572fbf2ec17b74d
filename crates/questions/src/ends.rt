// An edge's source, and a vertex's edge: both by the numbers alone.
ghost use Rattle.std.specs.Prelude.{◌≡◌};
ghost use Rattle.mesh.specs.Reading.{read_source, read_edge};
ghost use Rattle.questions.specs.Answers.{listed};

use crate::order::{known_edge, known_vertex};
use tables::refusal::Refusal;
use tables::size::Size;

#[tactic(auto, unfolding(mesh::specs::Reading::read_source), using(tables::proofs::RefusalLaws::number_above))]
pub fn source(n: usize, j: usize) -> Result<u16, Refusal>
    ensures { listed result ≡ read_source n j }
{
    Size::of(n)?;
    known_edge(n, j)?;
    Ok((j / 3) as u16)
}

// Vertex 0 has no edge 0: it gives 3, which ends there.
#[tactic(auto, unfolding(mesh::specs::Reading::read_edge, mesh::specs::Reading::edge_of_vertex), using(tables::proofs::RefusalLaws::number_above))]
pub fn edge(n: usize, u: usize) -> Result<u16, Refusal>
    ensures { listed result ≡ read_edge n u }
{
    Size::of(n)?;
    known_vertex(n, u)?;
    Ok(if u == 0 { 3 } else { (3 * u) as u16 })
}
