// Whether a mesh is accepted and has the references given: it is built anew and compared.
ghost use Rattle.std.specs.Prelude.{◌≡◌, ◌&&◌, cond, eqb};
ghost use Rattle.mesh.specs.Verdict.{verdict};
ghost use Rattle.mesh.specs.Array.{references_of};
ghost use Rattle.mesh.specs.Rebuild.{same_list};
ghost use Rattle.tables.specs.Refusal.{number_met};

use crate::targets::Given;
use array::build;
use tables::limits::{MOST_EDGES, MOST_REFERENCES, UNUSED};
use tables::refusal::{Refusal, refuse_if};

pub(crate) fn verify(given: Given, triangles: &[u16], wood: &[u16]) -> Result<(), Refusal>
    ensures { number_met result ≡ cond (eqb (verdict given.entry.size.vertices triangles.now wood.now) 0 && same_list (references_of given.entry.size.vertices triangles.now wood.now) given.entry.references.now) 0 18 }
{
    let mut references_table = [UNUSED; MOST_REFERENCES];
    let mut service_table = [0u8; MOST_EDGES];
    let built = &mut references_table[..given.size.references()];
    let service = &mut service_table[..given.size.edges()];
    match build(given.size.vertices, triangles, wood, built, service) {
        Ok(()) => refuse_if(*built != *given.references, Refusal::NoMesh),
        Err(_) => Err(Refusal::NoMesh),
    }
}
