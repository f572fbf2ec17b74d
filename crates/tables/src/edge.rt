// Edges of a wood table: which indices are edges, and which edge joins two vertices.
ghost use Rattle.std.specs.Prelude.{◌≡◌};
ghost use Rattle.mesh.specs.Wood.{used, is_edge, label_of, edge_at};
ghost use Rattle.tables.specs.Edge.{colour_between};
ghost use Rattle.tables.specs.Label.{label_meant};

use crate::limits::UNUSED;
use crate::table::at;

// What the anchors' nine indices hold: edges 3 and 6 end at 0, edge 7 at 1.
pub const ANCHOR_TARGETS: [u16; 9] = [UNUSED, UNUSED, UNUSED, 0, UNUSED, UNUSED, 0, 1, UNUSED];

// Indices 0, 1, 2, 4, 5 and 8 are unused.
#[tactic(auto, unfolding(mesh::specs::Wood::used))]
pub fn used(j: usize) -> bool
    ensures { result ≡ used j }
{
    // The most first, and one by one: a walk asks at each step, and a pattern of all four is compiled to a slower test.
    9 <= j || j == 3 || j == 6 || j == 7
}

// By the vertex that it leaves, so that no product can grow too large.
pub fn is_edge(n: usize, j: usize) -> bool
    ensures { result ≡ is_edge n j }
{
    used(j) && j / 3 < n
}

// The colour of the edge that leaves a for b.
pub fn colour_to(ws: &[u16], a: u16, b: u16) -> Option<usize>
    ensures { result ≡ colour_between ws.now a b }
{
    let first = 3 * (a as usize);
    (0..3).find(|c| at(ws, first + *c) == b)
}

// What b is to a: the end of an edge out of it, of that colour, the start of one into it, or neither.
#[derive(Clone, Copy, Debug, PartialEq, Eq)]
pub enum Label {
    Out(usize),
    Into(usize),
    Bare,
}

pub fn label_of(ws: &[u16], a: u16, b: u16) -> Label
    ensures { label_meant result ≡ label_of ws.now a b }
{
    match colour_to(ws, a, b) {
        Some(colour) => Label::Out(colour),
        None => match colour_to(ws, b, a) {
            Some(colour) => Label::Into(colour),
            None => Label::Bare,
        },
    }
}

// The edge that joins a and b, whichever way it runs; the mark where there is none, since that is what a table of references then
// holds and `edge_at` of the definitions says.
pub fn edge_between(ws: &[u16], a: u16, b: u16) -> usize
    ensures { result ≡ edge_at ws.now a b }
{
    match label_of(ws, a, b) {
        Label::Out(colour) => 3 * (a as usize) + colour,
        Label::Into(colour) => 3 * (b as usize) + colour,
        Label::Bare => UNUSED as usize,
    }
}
