// Numbers 9 to 13: the faults of the wood over triangles that met none of 3 to 8, in order, each over the whole input.
ghost use Rattle.std.specs.Prelude.{◌≡◌, length};
ghost use Rattle.mesh.specs.Limits.{wood_length};
ghost use Rattle.mesh.specs.Sides.{third};
ghost use Rattle.mesh.specs.Ladder.{first_of};
ghost use Rattle.mesh.specs.Verdict.{edge_fault, wood_ladder};
ghost use Rattle.tables.specs.Refusal.{number_met};

use crate::path::Paths;
use crate::positions::unjoined_edge;
use crate::round::Joined;
use crate::targets::Wood;
use tables::refusal::{Refusal, refuse_if};
use tables::sided::Sided;

// The first fault of the wood.
pub(crate) fn check_wood(mesh: &Sided) -> Result<(), Refusal>
    requires { length mesh.now.wood.now ≡ wood_length mesh.now.size.vertices }
    ensures { number_met result ≡ first_of (wood_ladder mesh.now.size.vertices (third mesh.now.triangles.now) mesh.now.wood.now) }
{
    let wood = Wood {
        size: mesh.size,
        targets: mesh.wood,
    };
    refuse_if(wood.target_wrong(), Refusal::TargetWrong)?;
    refuse_if(
        unjoined_edge(mesh).is_some() || wood.taken_pair().is_some(),
        Refusal::EdgeWrong,
    )?;
    refuse_if(wood.anchor_rule_broken(), Refusal::AnchorRule)?;
    refuse_if(
        Joined { mesh: *mesh }.broken_vertex().is_some(),
        Refusal::TurnRule,
    )?;
    refuse_if(Paths { wood }.broken(), Refusal::PathRule)
}
