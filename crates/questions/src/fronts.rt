// LeftFront and RightFront, once for both hands.
ghost use Rattle.std.specs.Prelude.{◌≡◌};
ghost use Rattle.mesh.specs.Array.{left, right};
ghost use Rattle.mesh.specs.Reading.{read_front};
ghost use Rattle.tables.specs.Hand.{hand_meant};
ghost use Rattle.questions.specs.Answers.{listed};

use crate::array::Edge;
use tables::hand::Hand;
use tables::refusal::Refusal;

#[tactic(auto, unfolding(mesh::specs::Reading::read_front, mesh::specs::Reading::front_answer), using(tables::proofs::RefusalLaws::number_above))]
fn front(n: usize, references: &[u16], hand: Hand, j: usize) -> Result<u16, Refusal>
    ensures { listed result ≡ read_front (hand_meant hand) n references.now j }
{
    let edge = Edge::of(n, references, j)?;
    Ok(edge.front(hand)?.index as u16)
}

pub fn left_front(n: usize, references: &[u16], j: usize) -> Result<u16, Refusal>
    ensures { listed result ≡ read_front left n references.now j }
{
    front(n, references, Hand::Left, j)
}

pub fn right_front(n: usize, references: &[u16], j: usize) -> Result<u16, Refusal>
    ensures { listed result ≡ read_front right n references.now j }
{
    front(n, references, Hand::Right, j)
}
