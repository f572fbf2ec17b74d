// The edge that a question asks about, where 1, 2 and 14 are past, and those that the array leads to from there. The two loads by which
// every question reads an array stand here, in `front` and `byte`; another layout of the same array is another pair of these.
ghost use Rattle.std.specs.Prelude.{◌≡◌, ◌+◌, ◌*◌, ◌%◌, ◌<◌, true, false, cond, not, IfOk, OnErr};
ghost use Rattle.mesh.specs.Wood.{source, colour, edge_of, is_edge};
ghost use Rattle.mesh.specs.Reading.{bytes_in, references_fit, array_fits, edge_answer};
ghost use Rattle.tables.specs.Hand.{hand_meant};
ghost use Rattle.tables.specs.Refusal.{number_met};
ghost use Rattle.questions.specs.Order.{edge_met};
ghost use Rattle.questions.specs.Answers.{edge_at, front_of, edge_listed};

use crate::array::{Edge, References, Served};
use crate::order::known_edge;
use tables::edge::used;
use tables::hand::Hand;
use tables::refusal::{Refusal, refuse_if};

impl<'a> References<'a> {
    // The edge that a question names.
    fn asked(self, j: usize) -> Result<Edge<'a>, Refusal>
        ensures met { number_met result ≡ cond (not (is_edge self.entry.size.vertices j)) 14 0 }
        ensures ok { IfOk result (edge_at self.entry.size.vertices self.entry.fronts.now j) }
    {
        known_edge(self.size.vertices, j)?;
        Ok(Edge {
            references: self,
            index: j,
        })
    }

    // The edge that the array leads to: torn where it is none.
    #[tactic(auto, unfolding(mesh::specs::Reading::edge_answer), using(mesh::proofs::Walk::edge_bound, tables::proofs::EdgeLaws::leaves_below))]
    fn edge(self, e: u16) -> Result<Edge<'a>, Refusal>
        ensures answer { edge_listed result ≡ edge_answer self.entry.size.vertices e }
        ensures ok { IfOk result (λ f. edge_at self.entry.size.vertices self.entry.fronts.now e f × (is_edge self.entry.size.vertices e ≡ true)) }
        ensures err { OnErr result (is_edge self.entry.size.vertices e ≡ false) }
    {
        // `is_edge` without its division: a walk asks at each step, and here n is small enough for the product.
        let index = e as usize;
        if index < self.size.edges() && used(index) {
            Ok(Edge {
                references: self,
                index,
            })
        } else {
            Err(Refusal::Torn)
        }
    }
}

impl<'a> Edge<'a> {
    pub(crate) fn of(n: usize, references: &'a [u16], j: usize) -> Result<Edge<'a>, Refusal>
        ensures met { number_met result ≡ edge_met n (references_fit n references.now) j }
        ensures ok { IfOk result (edge_at n references.now j) }
    {
        References::of(n, references)?.asked(j)
    }

    pub(crate) fn colour(self) -> usize
        ensures { result ≡ colour self.entry.index }
    {
        self.index % 3
    }

    // Its Front on that hand.
    #[tactic(auto, using(tables::proofs::HandLaws::place_of_front))]
    pub(crate) fn front(self, hand: Hand) -> Result<Edge<'a>, Refusal>
        ensures answer { edge_listed result ≡ edge_answer self.entry.references.size.vertices (front_of (hand_meant hand) self.entry) }
        ensures ok { IfOk result (λ f. edge_at self.entry.references.size.vertices self.entry.references.fronts.now (front_of (hand_meant hand) self.entry) f × (is_edge self.entry.references.size.vertices (front_of (hand_meant hand) self.entry) ≡ true)) }
        ensures err { OnErr result (is_edge self.entry.references.size.vertices (front_of (hand_meant hand) self.entry) ≡ false) }
    {
        self.references
            .edge(self.references.fronts[2 * self.index + hand.place()])
    }

    // The edge of its source that is so many colours on.
    pub(crate) fn beside(self, step: usize) -> Result<Edge<'a>, Refusal>
        requires { step < 5 }
        ensures { edge_listed result ≡ edge_answer self.entry.references.size.vertices (edge_of (source self.entry.index) ((colour self.entry.index + step) % 3)) }
    {
        let e = 3 * (self.index / 3) + (self.colour() + step) % 3;
        self.references.edge(e as u16)
    }
}

impl<'a> Served<'a> {
    pub(crate) fn of(
        n: usize,
        references: &'a [u16],
        service: &'a [u8],
        j: usize,
    ) -> Result<Served<'a>, Refusal>
        ensures met { number_met result ≡ edge_met n (array_fits n references.now service.now) j }
        ensures ok { IfOk result (λ a. edge_at n references.now j a.edge × (a.service.now ≡ service.now)) }
    {
        let references = References::of(n, references)?;
        refuse_if(service.len() != references.size.edges(), Refusal::Length)?;
        let edge = references.asked(j)?;
        Ok(Served { edge, service })
    }

    pub(crate) fn byte(self) -> u8
        ensures { result ≡ bytes_in self.entry.service.now self.entry.edge.index }
    {
        self.service[self.edge.index]
    }
}
