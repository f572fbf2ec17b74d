// Point: the three coordinates of a vertex, where they are finite.
ghost use Rattle.std.specs.Prelude.{◌≡◌, ◌+◌, ◌*◌, ◌≤◌, length};
ghost use Rattle.questions.specs.Answers.{coordinates_of, point_answer};

use crate::answer::Coordinates;
use crate::order::known_vertex;
use tables::refusal::{Refusal, refuse_if};
use tables::size::Size;

fn coordinates_at(coordinates: &[f32], v: usize) -> Coordinates
    requires { 3 * v + 3 ≤ length coordinates.now }
    ensures { result ≡ coordinates_of coordinates.now v }
{
    Coordinates {
        x: coordinates[3 * v],
        y: coordinates[3 * v + 1],
        z: coordinates[3 * v + 2],
    }
}

#[tactic(auto, unfolding(crate::specs::Answers::point_answer, mesh::specs::Point::point_refusal, mesh::specs::Point::all_finite), using(crate::proofs::PointLaws::by_number, tables::proofs::RefusalLaws::number_above))]
pub fn point(n: usize, coordinates: &[f32], v: usize) -> Result<Coordinates, Refusal>
    ensures { result ≡ point_answer n coordinates.now v }
{
    let size = Size::of(n)?;
    refuse_if(coordinates.len() != 3 * size.vertices, Refusal::Length)?;
    known_vertex(n, v)?;
    let found = coordinates_at(coordinates, v);
    refuse_if(!found.are_finite(), Refusal::NotFinite)?;
    Ok(found)
}
