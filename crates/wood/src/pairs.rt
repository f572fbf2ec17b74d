// Number 10, its second half: two edges that join the same pair.
ghost use Rattle.std.specs.Prelude.{◌≡◌, ◌*◌, ◌≤◌};
ghost use Rattle.mesh.specs.Search.{lowest};
ghost use Rattle.mesh.specs.Limits.{most_vertices};
ghost use Rattle.mesh.specs.Wood.{same_pair};
ghost use Rattle.mesh.specs.Verdict.{pair_fault};
ghost use Rattle.wood.specs.Pairs.{joins_before};

use crate::targets::Wood;
use tables::edge::used;
use tables::table::at;

// The edges d and e join the same pair.
#[tactic(auto, unfolding(mesh::specs::Wood::same_pair))]
fn same_pair(ws: &[u16], d: usize, e: usize) -> bool
    ensures { result ≡ same_pair ws.now d e }
{
    let u = e / 3;
    let v = at(ws, e) as usize;
    let a = d / 3;
    let b = at(ws, d) as usize;
    (a == u && b == v) || (a == v && b == u)
}

// Edge d is one lower than e, and joins the same pair.
fn joins_before(ws: &[u16], d: usize, e: usize) -> bool
    ensures { result ≡ joins_before ws.now d e }
{
    d < e && used(d) && same_pair(ws, d, e)
}

// A lower edge joins the pair of e: it leaves one of its two ends, so six edges are all that there are to look at.
fn pair_taken(ws: &[u16], e: usize) -> bool
    requires { e ≤ 3 * most_vertices }
    ensures { result ≡ pair_fault ws.now e }
{
    let out = 3 * (e / 3);
    let back = 3 * (at(ws, e) as usize);
    used(e) && (0..3).any(|c| joins_before(ws, out + c, e) || joins_before(ws, back + c, e))
}

impl Wood<'_> {
    // The lowest edge that joins a pair which a lower one joins.
    pub(crate) fn taken_pair(&self) -> Option<usize>
        ensures { result ≡ lowest (pair_fault self.now.targets.now) (3 * self.now.size.vertices) }
    {
        (0..self.size.edges()).find(|e| pair_taken(self.targets, *e))
    }
}
