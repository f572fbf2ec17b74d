// A rebuild: decode into the outputs, then check that mesh and compare its references with those given.
ghost use Rattle.std.specs.Prelude.{◌≡◌, length};
ghost use Rattle.mesh.specs.Limits.{triangles_length, wood_length};
ghost use Rattle.tables.specs.Refusal.{number_met};
ghost use Rattle.rebuild.specs.Decode.{MeshDecoded};
ghost use Rattle.rebuild.specs.Rebuild.{rebuild_lengths, Rebuild};

use crate::targets::Given;
use crate::verify::verify;
use crate::writing::decode_triangles;
use tables::refusal::{Refusal, refuse_if};
use tables::size::Size;
use tables::table::mark_all;

#[tactic(auto, unfolding(crate::specs::Rebuild::rebuild_lengths))]
fn lengths_fit(size: Size, references: &[u16], wood: &[u16], triangles: &[u16]) -> bool
    ensures { result ≡ rebuild_lengths size.vertices references.now wood.now triangles.now }
{
    references.len() == size.references()
        && wood.len() == size.edges()
        && triangles.len() == size.corners()
}

// Decodes into both outputs; refuses where no accepted mesh with these references is then in them. They are lent apart: each stage writes
// another of them.
fn decode_mesh(given: Given, wood: &mut [u16], triangles: &mut [u16]) -> Result<(), Refusal>
    requires { (length wood.old ≡ wood_length given.size.vertices) × (length triangles.old ≡ triangles_length given.size.vertices) }
    ensures { MeshDecoded given.entry.size.vertices given.entry.references.now (number_met result) wood.new triangles.new }
{
    given.decode_wood(wood);
    decode_triangles(given, wood, triangles)?;
    verify(given, triangles, wood)
}

// The mesh whose references these are. What was decoded of a refused array is overwritten by the mark.
pub fn rebuild(
    n: usize,
    references: &[u16],
    wood: &mut [u16],
    triangles: &mut [u16],
) -> Result<(), Refusal>
    ensures { Rebuild n references.now wood.old triangles.old result wood.new triangles.new }
{
    let size = Size::of(n)?;
    refuse_if(
        !lengths_fit(size, references, wood, triangles),
        Refusal::Length,
    )?;
    let given = Given { size, references };
    let decoded = decode_mesh(given, wood, triangles);
    if decoded.is_err() {
        mark_all(wood);
        mark_all(triangles);
    }
    decoded
}
