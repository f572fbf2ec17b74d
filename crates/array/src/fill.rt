// The references and the service bytes of an accepted mesh, from the two tables that its check leaves: linear, since each edge
// knows the position of its side.
ghost use Rattle.std.specs.Prelude.{◌≡◌, cond, ◌<◌, length};
ghost use Rattle.mesh.specs.Limits.{references_length, service_length};
ghost use Rattle.mesh.specs.Sides.{third};
ghost use Rattle.mesh.specs.Array.{reference_at, same_source, service_at, references_of, service_of};
ghost use Rattle.tables.specs.Hand.{hand_meant};
ghost use Rattle.array.specs.Fill.{vertex_at, corner_at, neighbour_at};

use crate::accepted::{Accepted, Edge};
use tables::edge::{edge_between, used};
use tables::hand::Hand;
use tables::limits::UNUSED;
use tables::side::before;
use tables::table::at;

#[derive(Clone, Copy, Debug, PartialEq, Eq)]
enum End {
    Source,
    Target,
}

impl<'a> Edge<'a> {
    // The vertex at that end.
    fn vertex(self, end: End) -> u16
        ensures { result ≡ vertex_at self.entry end }
    {
        match end {
            End::Source => (self.index / 3) as u16,
            End::Target => at(self.mesh.sided.wood, self.index),
        }
    }

    // The third corner of the triangle on that hand.
    #[tactic(auto, using(crate::proofs::FillLaws::corner_left, crate::proofs::FillLaws::corner_right))]
    fn corner(self, hand: Hand) -> u16
        ensures { result ≡ corner_at self.entry (hand_meant hand) }
    {
        let mesh = self.mesh.sided;
        let position = at(mesh.positions, self.index);
        let side = match hand {
            Hand::Left => position,
            Hand::Right => at(mesh.twins, position as usize),
        };
        at(mesh.triangles, before(side))
    }

    // The neighbouring edge at that end and on that hand: a Front at the target, a Back at the source.
    #[tactic(auto, unfolding(mesh::specs::Array::front, mesh::specs::Array::back), using(tables::proofs::EdgeLaws::edge_fits, crate::proofs::FillLaws::vertex_small, crate::proofs::FillLaws::corner_small))]
    fn neighbour(self, end: End, hand: Hand) -> u16
        ensures { result ≡ neighbour_at self.entry end (hand_meant hand) }
    {
        edge_between(self.mesh.sided.wood, self.vertex(end), self.corner(hand)) as u16
    }

    // Whether the Back on that hand has the same source.
    #[tactic(auto, unfolding(mesh::specs::Array::same_source))]
    fn same_source(self, hand: Hand) -> bool
        ensures { cond result 1 0 ≡ same_source (hand_meant hand) (third self.entry.mesh.sided.triangles.now) self.entry.mesh.sided.wood.now self.entry.index }
    {
        self.neighbour(End::Source, hand) as usize / 3 == self.index / 3
    }
}

impl<'a> Accepted<'a> {
    // What place i of the references holds: the edge i / 2, with its left before its right.
    #[tactic(auto, unfolding(mesh::specs::Array::reference_at))]
    fn reference_at(self, i: usize) -> u16
        requires { i < references_length self.sided.size.vertices }
        ensures { result ≡ reference_at (third self.entry.sided.triangles.now) self.entry.sided.wood.now i }
    {
        if used(i / 2) {
            let edge = Edge {
                mesh: self,
                index: i / 2,
            };
            edge.neighbour(End::Target, Hand::of_place(i))
        } else {
            UNUSED
        }
    }

    // What place j of the service holds: bit 0 for the left, bit 1 for the right.
    #[tactic(auto, unfolding(mesh::specs::Array::service_at), using(crate::proofs::FillLaws::two_bits))]
    fn service_at(self, j: usize) -> u8
        requires { j < service_length self.sided.size.vertices }
        ensures { result ≡ service_at (third self.entry.sided.triangles.now) self.entry.sided.wood.now j }
    {
        if used(j) {
            let edge = Edge {
                mesh: self,
                index: j,
            };
            let left = edge.same_source(Hand::Left) as u8;
            let right = edge.same_source(Hand::Right) as u8;
            left | (right << 1)
        } else {
            0
        }
    }

    // Two loops: one function for both would have to ask of its callers that the closure that it takes may be called.
    pub(crate) fn fill_references(self, references: &mut [u16])
        requires { length references.old ≡ references_length self.sided.size.vertices }
        ensures { references.new ≡ references_of self.entry.sided.size.vertices self.entry.sided.triangles.now self.entry.sided.wood.now }
    {
        for (i, place) in references.iter_mut().enumerate() {
            *place = self.reference_at(i);
        }
    }

    pub(crate) fn fill_service(self, service: &mut [u8])
        requires { length service.old ≡ service_length self.sided.size.vertices }
        ensures { service.new ≡ service_of self.entry.sided.size.vertices self.entry.sided.triangles.now self.entry.sided.wood.now }
    {
        for (j, place) in service.iter_mut().enumerate() {
            *place = self.service_at(j);
        }
    }
}
