// Target: from an edge on by LeftFront, round the vertex that it ends at, until an edge that tells the vertex.
ghost use Rattle.std.specs.Prelude.{◌≡◌};
ghost use Rattle.mesh.specs.Wood.{colour};
ghost use Rattle.mesh.specs.Reading.{fronts_in, stop_at, target_answer, read_target_of};
ghost use Rattle.questions.specs.Stops.{stop_meant};
ghost use Rattle.questions.specs.Answers.{target_listed};

use crate::answer::Reached;
use crate::array::Edge;
use tables::hand::Hand;
use tables::refusal::Refusal;

impl<'a> Edge<'a> {
    // The vertex where a walk from `start` ends at this edge, and none where it goes on. Edges 3 and 7 come first: on the outer
    // triangle the colours do not tell the vertex.
    #[tactic(auto, unfolding(mesh::specs::Reading::stop_at))]
    fn stop_from(self, start: Edge) -> Result<Option<u16>, Refusal>
        ensures { result ≡ stop_meant (stop_at (colour start.entry.index) self.entry.index) }
    {
        if self.index == 3 {
            return Ok(Some(0));
        }
        if self.index == 7 {
            return Ok(Some(1));
        }
        if self.colour() == (start.colour() + 1) % 3 {
            return Ok(Some((self.index / 3) as u16));
        }
        if self.colour() == start.colour() {
            return Ok(None);
        }
        Err(Refusal::Torn)
    }

    // Its target, by at most n - 2 reads.
    #[tactic(auto, unfolding(mesh::specs::Reading::target_answer, mesh::specs::Reading::edge_answer), using(crate::proofs::WalkLaws::turns, tables::proofs::RefusalLaws::number_above))]
    fn target(self) -> Result<Reached, Refusal>
        ensures { target_listed result ≡ target_answer self.entry.references.size.vertices (fronts_in self.entry.references.fronts.now) self.entry.index }
    {
        let most = self.references.size.vertices - 2;
        let mut edge = self;
        for reads in 0..most {
            if let Some(vertex) = edge.stop_from(self)? {
                return Ok(Reached {
                    vertex,
                    reads: reads as u16,
                });
            }
            edge = edge.front(Hand::Left)?;
        }
        match edge.stop_from(self)? {
            Some(vertex) => Ok(Reached {
                vertex,
                reads: most as u16,
            }),
            None => Err(Refusal::Torn),
        }
    }
}

#[tactic(auto, unfolding(mesh::specs::Reading::read_target_of), using(tables::proofs::RefusalLaws::number_above))]
pub fn target(n: usize, references: &[u16], j: usize) -> Result<Reached, Refusal>
    ensures { target_listed result ≡ read_target_of n references.now j }
{
    Edge::of(n, references, j)?.target()
}
