// LeftBack and RightBack, once for both hands.
ghost use Rattle.std.specs.Prelude.{◌≡◌};
ghost use Rattle.mesh.specs.Array.{left, right};
ghost use Rattle.mesh.specs.Reading.{fronts_in, bytes_in, outer_back, step_of, back_by_front, inner_back, read_back};
ghost use Rattle.tables.specs.Hand.{hand_meant};
ghost use Rattle.questions.specs.Answers.{listed, edge_listed, unless_0};

use crate::array::{Edge, Served};
use tables::hand::Hand;
use tables::limits::MOST_SERVICE;
use tables::refusal::Refusal;

// LeftBack of 3 and 7 and RightBack of 6 lie on the outer triangle, where the colour rules do not hold.
#[tactic(auto, unfolding(mesh::specs::Reading::outer_back))]
fn outer_back(hand: Hand, j: usize) -> Option<u16>
    ensures { result ≡ unless_0 (outer_back (hand_meant hand) j) }
{
    match (hand, j) {
        (Hand::Left, 3) | (Hand::Right, 6) => Some(7),
        (Hand::Left, 7) => Some(6),
        _ => None,
    }
}

// How many colours on the source's other edge on this hand is.
fn step_of(hand: Hand) -> usize
    ensures { result ≡ step_of (hand_meant hand) }
{
    match hand {
        Hand::Left => 1,
        Hand::Right => 2,
    }
}

impl<'a> Edge<'a> {
    // Back of the edge `of`, whose Front this is.
    #[tactic(auto, unfolding(mesh::specs::Reading::back_by_front))]
    fn back_by_front(self, hand: Hand, of: Edge) -> Result<Edge<'a>, Refusal>
        ensures { edge_listed result ≡ back_by_front (hand_meant hand) self.entry.references.size.vertices (fronts_in self.entry.references.fronts.now) of.entry.index self.entry.index }
    {
        let step = step_of(hand);
        if self.colour() == of.colour() {
            return self.beside(2 * step);
        }
        if self.colour() == (of.colour() + step) % 3 {
            return self.front(hand);
        }
        Err(Refusal::Torn)
    }
}

impl<'a> Served<'a> {
    // Back by the service byte and the colours.
    #[tactic(auto, unfolding(mesh::specs::Reading::inner_back), using(tables::proofs::RefusalLaws::number_above))]
    fn inner_back(self, hand: Hand) -> Result<Edge<'a>, Refusal>
        ensures { edge_listed result ≡ inner_back (hand_meant hand) self.entry.edge.references.size.vertices (fronts_in self.entry.edge.references.fronts.now) (bytes_in self.entry.service.now self.entry.edge.index) self.entry.edge.index }
    {
        let byte = self.byte();
        if MOST_SERVICE < byte {
            return Err(Refusal::Torn);
        }
        if hand.bit(byte) == 1 {
            return self.edge.beside(step_of(hand));
        }
        self.edge.front(hand)?.back_by_front(hand, self.edge)
    }
}

// What stands on the outer triangle consults nothing. It takes n and the tables one by one, as its two public callers have to be
// lent them: so they become one value here.
#[tactic(auto, unfolding(mesh::specs::Reading::read_back, mesh::specs::Reading::back_answer), using(tables::proofs::RefusalLaws::number_above))]
fn back(n: usize, references: &[u16], service: &[u8], hand: Hand, j: usize) -> Result<u16, Refusal>
    ensures { listed result ≡ read_back (hand_meant hand) n references.now service.now j }
{
    let served = Served::of(n, references, service, j)?;
    match outer_back(hand, j) {
        Some(outer) => Ok(outer),
        None => Ok(served.inner_back(hand)?.index as u16),
    }
}

pub fn left_back(n: usize, references: &[u16], service: &[u8], j: usize) -> Result<u16, Refusal>
    ensures { listed result ≡ read_back left n references.now service.now j }
{
    back(n, references, service, Hand::Left, j)
}

pub fn right_back(n: usize, references: &[u16], service: &[u8], j: usize) -> Result<u16, Refusal>
    ensures { listed result ≡ read_back right n references.now service.now j }
{
    back(n, references, service, Hand::Right, j)
}
