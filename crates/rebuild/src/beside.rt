// The triangle beside an edge, by its Front. The references may be any numbers, so every read is total.
ghost use Rattle.std.specs.Prelude.{◌≡◌, ◌&&◌, ◌*◌, ◌/◌, ◌<◌};
ghost use Rattle.mesh.specs.Limits.{most_vertices, at};
ghost use Rattle.mesh.specs.Wood.{used};
ghost use Rattle.mesh.specs.Array.{hand_at, front_place};
ghost use Rattle.mesh.specs.Rebuild.{other_end, corner_beside, is_lowest, triangle_beside};
ghost use Rattle.tables.specs.Hand.{hand_meant};

use tables::edge::{edge_between, used};
use tables::hand::Hand;
use tables::table::at;
use tables::triangle::Triangle;

// The end of the edge f that is not v.
#[tactic(auto, unfolding(mesh::specs::Rebuild::other_end))]
fn other_end(wood: &[u16], f: u16, v: u16) -> u16
    ensures { result ≡ other_end wood.now f v }
{
    if f / 3 == v {
        at(wood, f as usize)
    } else {
        f / 3
    }
}

// A place of the references, by the edge and the hand that it belongs to, beside the wood that was decoded from them.
#[derive(Clone, Copy)]
pub(crate) struct Place<'a> {
    pub references: &'a [u16],
    pub wood: &'a [u16],
    pub edge: usize,
    pub hand: Hand,
    pub ghost within: { edge < 3 * most_vertices },
}

impl<'a> Place<'a> {
    pub(crate) fn of(references: &'a [u16], wood: &'a [u16], i: usize) -> Place<'a>
        requires { i < 6 * most_vertices }
        ensures tables { (result.references.now ≡ references.now) × (result.wood.now ≡ wood.now) }
        ensures edge { result.edge ≡ i / 2 }
        ensures hand { hand_meant result.hand ≡ hand_at i }
    {
        Place {
            references,
            wood,
            edge: i / 2,
            hand: Hand::of_place(i),
        }
    }

    #[tactic(auto, using(tables::proofs::HandLaws::place_of_front))]
    fn front(self) -> u16
        ensures { result ≡ at self.entry.references.now (front_place (hand_meant self.entry.hand) self.entry.edge) }
    {
        at(self.references, 2 * self.edge + self.hand.place())
    }

    // The third corner of the triangle there: the end of the Front that is not the edge's target.
    #[tactic(auto, unfolding(mesh::specs::Rebuild::corner_beside))]
    fn corner(self) -> u16
        ensures { result ≡ corner_beside (hand_meant self.entry.hand) self.entry.references.now self.entry.wood.now self.entry.edge }
    {
        other_end(self.wood, self.front(), at(self.wood, self.edge))
    }

    // Whether the edge has the smallest index among the three edges of the triangle there.
    #[tactic(auto, unfolding(mesh::specs::Rebuild::is_lowest))]
    fn is_lowest(self) -> bool
        ensures { result ≡ is_lowest (hand_meant self.entry.hand) self.entry.references.now self.entry.wood.now self.entry.edge }
    {
        let source = (self.edge / 3) as u16;
        self.edge < self.front() as usize
            && self.edge < edge_between(self.wood, source, self.corner())
    }

    // Whether a triangle is written here.
    pub(crate) fn is_written(self) -> bool
        ensures { result ≡ (used self.entry.edge && is_lowest (hand_meant self.entry.hand) self.entry.references.now self.entry.wood.now self.entry.edge) }
    {
        used(self.edge) && self.is_lowest()
    }

    // The triangle there, its edge first: along it on the left, against it on the right.
    pub(crate) fn triangle(self) -> Triangle
        ensures { result.corners ≡ triangle_beside (hand_meant self.entry.hand) self.entry.references.now self.entry.wood.now self.entry.edge }
    {
        let source = (self.edge / 3) as u16;
        let target = at(self.wood, self.edge);
        let corner = self.corner();
        let corners = match self.hand {
            Hand::Left => [source, target, corner],
            Hand::Right => [target, source, corner],
        };
        Triangle { corners }
    }
}
