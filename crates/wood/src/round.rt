// Number 12: the turn rule. A turn round an inner vertex falls into three sectors; sector c begins at the edge out of colour c,
// goes on with edges into the vertex of colour c+2, and ends before the edge out of colour c+1. One whole turn is made for each.
ghost use Rattle.std.specs.Prelude.{◌≡◌, ◌*◌, ◌<◌, ◌≤◌, false, length};
ghost use Rattle.mesh.specs.Search.{lowest, some};
ghost use Rattle.mesh.specs.Sides.{from, to, third};
ghost use Rattle.mesh.specs.Wood.{label_of};
ghost use Rattle.mesh.specs.Verdict.{join_fault, turn_rule_fault};
ghost use Rattle.wood.specs.Sectors.{sector_of, may_follow, sector_step, sector_holds};

use tables::edge::{Label, label_of};
use tables::side::{next, turn_at};
use tables::sided::Sided;
use tables::table::at;

// The sector that neighbour b of v is in, where an edge joins the two.
fn sector_of(ws: &[u16], v: u16, b: u16) -> Option<usize>
    ensures { result ≡ sector_of (label_of ws.now v b) }
{
    match label_of(ws, v, b) {
        Label::Out(colour) => Some(colour),
        Label::Into(colour) => Some((colour + 1) % 3),
        Label::Bare => None,
    }
}

// One of the three sectors, in a mesh.
#[derive(Clone, Copy)]
struct Sector<'a> {
    mesh: Sided<'a>,
    colour: usize,
    ghost one_of_three: { colour < 3 },
}

impl Sector<'_> {
    // Neighbour b of v may come next in the sector: it goes on in it, or begins the sector after it.
    fn may_follow(&self, v: u16, b: u16) -> bool
        ensures { result ≡ may_follow self.now.colour (label_of self.now.mesh.wood.now v b) }
    {
        match label_of(self.mesh.wood, v, b) {
            Label::Out(colour) => colour == (self.colour + 1) % 3,
            Label::Into(colour) => colour == (self.colour + 2) % 3,
            Label::Bare => false,
        }
    }

    // The sides at p and then at q, round the vertex that they leave, keep the turn rule as far as it is the sector's.
    fn keeps(&self, p: u16, q: u16) -> bool
        ensures { result ≡ sector_step self.now.colour (label_of self.now.mesh.wood.now (from self.now.mesh.triangles.now p) (to self.now.mesh.triangles.now p)) (label_of self.now.mesh.wood.now (from self.now.mesh.triangles.now p) (to self.now.mesh.triangles.now q)) }
    {
        let ts = self.mesh.triangles;
        let v = at(ts, p as usize);
        match sector_of(self.mesh.wood, v, at(ts, next(p))) {
            Some(sector) => sector != self.colour || self.may_follow(v, at(ts, next(q))),
            None => false,
        }
    }

    // One turn from the side at start keeps the sector's part of the rule. It meets at most n sides.
    fn holds(&self, start: u16) -> bool
        requires { start < length self.now.mesh.triangles.now }
        ensures { result ≡ sector_holds self.now.mesh.size.vertices (third self.now.mesh.triangles.now) self.now.mesh.wood.now (from self.now.mesh.triangles.now start) (to self.now.mesh.triangles.now start) self.now.colour }
    {
        let mut p = start;
        for _ in 0..self.mesh.size.vertices {
            let q = turn_at(self.mesh.twins, p);
            if !self.keeps(p, q) {
                return false;
            }
            if q == start {
                return true;
            }
            p = q;
        }
        true
    }
}

// A mesh each of whose edges joins two neighbours: what 10 leaves.
#[derive(Clone, Copy)]
pub(crate) struct Joined<'a> {
    pub(crate) mesh: Sided<'a>,
    pub(crate) ghost joined: { some (join_fault mesh.size.vertices (third mesh.triangles.now) mesh.wood.now) (3 * mesh.size.vertices) ≡ false },
}

impl<'a> Joined<'a> {
    fn sector(&self, colour: usize) -> Sector<'a>
        requires { colour < 3 }
        ensures { (result.mesh ≡ self.now.mesh) × (result.colour ≡ colour) }
    {
        Sector {
            mesh: self.mesh,
            colour,
        }
    }

    // The turn rule is broken at the inner vertex v.
    fn broken_at(&self, v: usize) -> bool
        requires { (3 ≤ v) × (v < self.now.mesh.size.vertices) }
        ensures { result ≡ turn_rule_fault self.now.mesh.size.vertices (third self.now.mesh.triangles.now) self.now.mesh.wood.now v }
    {
        let start = at(self.mesh.positions, 3 * v);
        !(0..3).all(|colour| self.sector(colour).holds(start))
    }

    // The lowest vertex where the turn rule is broken.
    pub(crate) fn broken_vertex(&self) -> Option<usize>
        ensures { result ≡ lowest (turn_rule_fault self.now.mesh.size.vertices (third self.now.mesh.triangles.now) self.now.mesh.wood.now) self.now.mesh.size.vertices }
    {
        (3..self.mesh.size.vertices).find(|v| self.broken_at(*v))
    }
}
