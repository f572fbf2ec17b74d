// The position of each edge's side, and number 10's first half: an edge that joins no two neighbours.
ghost use Rattle.std.specs.Prelude.{◌≡◌, ◌+◌, ◌*◌, ◌<◌, ◌≤◌, length};
ghost use Rattle.mesh.specs.Search.{lowest};
ghost use Rattle.mesh.specs.Limits.{at};
ghost use Rattle.mesh.specs.Sides.{third};
ghost use Rattle.mesh.specs.Verdict.{join_fault};
ghost use Rattle.tables.specs.Checked.{positions_of, Meshed};
ghost use Rattle.wood.specs.Positions.{SidePositioned};

use tables::edge::used;
use tables::side::next;
use tables::sided::Sided;
use tables::size::Size;
use tables::table::{at, mark_all};

// The side at p is the side of each edge of its source that ends at its end.
fn position_side(ts: &[u16], ws: &[u16], p: u16, positions: &mut [u16])
    requires { 3 * at ts.now p + 3 ≤ length positions.old }
    ensures { SidePositioned ts.now ws.now p positions.old positions.new }
{
    let out = 3 * (at(ts, p as usize) as usize);
    let b = at(ts, next(p));
    for e in out..out + 3 {
        if at(ws, e) == b {
            positions[e] = p;
        }
    }
}

// One pass over the sides: afterwards each edge that runs along one has its position.
pub(crate) fn fill_positions(size: Size, ts: &[u16], ws: &[u16], positions: &mut [u16])
    requires { Meshed size.vertices ts.now × (length positions.old ≡ 3 * size.vertices) }
    ensures { positions.new ≡ positions_of size.vertices ts.now ws.now }
{
    mark_all(positions);
    for p in 0..ts.len() {
        position_side(ts, ws, p as u16, positions);
    }
}

// The lowest edge that joins no two neighbours: the mark stands for its position, as `check_mesh` promises of the table.
pub(crate) fn unjoined_edge(mesh: &Sided) -> Option<usize>
    ensures { result ≡ lowest (join_fault mesh.now.size.vertices (third mesh.now.triangles.now) mesh.now.wood.now) (3 * mesh.now.size.vertices) }
{
    let corners = mesh.triangles.len();
    (0..mesh.size.edges()).find(|e| used(*e) && corners <= at(mesh.positions, *e) as usize)
}
