// What is asked about: 14 or 15, once 1 and 2 are past.
ghost use Rattle.std.specs.Prelude.{◌≡◌, ◌*◌, ◌<◌, cond, not, leb, OnOk};
ghost use Rattle.mesh.specs.Wood.{is_edge};
ghost use Rattle.tables.specs.Refusal.{number_met};

use tables::edge::is_edge;
use tables::refusal::{Refusal, refuse_if};

pub(crate) fn known_edge(n: usize, j: usize) -> Result<(), Refusal>
    ensures met { number_met result ≡ cond (not (is_edge n j)) 14 0 }
    ensures ok { OnOk result (j < 3 * n) }
{
    refuse_if(!is_edge(n, j), Refusal::NoEdge)
}

pub(crate) fn known_vertex(n: usize, v: usize) -> Result<(), Refusal>
    ensures met { number_met result ≡ cond (leb n v) 15 0 }
    ensures ok { OnOk result (v < n) }
{
    refuse_if(n <= v, Refusal::NoVertex)
}
