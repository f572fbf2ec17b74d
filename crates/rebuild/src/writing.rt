// The triangles that references tell of, written one after the other.
ghost use Rattle.tables.specs.Refusal.{number_met};
ghost use Rattle.rebuild.specs.Decode.{Decoded};

use crate::beside::Place;
use crate::targets::Given;
use tables::refusal::{Refusal, refuse_if};

// Number 18, where the triangles do not fill the table exactly.
pub(crate) fn decode_triangles(
    given: Given,
    wood: &[u16],
    triangles: &mut [u16],
) -> Result<(), Refusal>
    ensures { Decoded given.entry.size.vertices given.entry.references.now wood.now triangles.old (number_met result) triangles.new }
{
    // By a cursor, since of chunks that an iterator lends a proof keeps the length alone (std: NOT_COVERED, chunks_mut).
    let mut cursor: usize = 0;
    for i in 0..given.size.references() {
        let place = Place::of(given.references, wood, i);
        if place.is_written() {
            if triangles.len() - cursor < 3 {
                return Err(Refusal::NoMesh);
            }
            triangles[cursor..cursor + 3].copy_from_slice(&place.triangle().corners);
            cursor += 3;
        }
    }
    refuse_if(cursor != triangles.len(), Refusal::NoMesh)
}
