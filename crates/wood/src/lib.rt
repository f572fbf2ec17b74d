// Numbers 9 to 13: a wood checked over a triangle table that met none of the numbers before; and the check of a whole mesh.
#![tactic(auto)]

mod check;
mod pairs;
mod path;
mod positions;
mod round;
mod targets;
mod verdict;

pub use check::check_mesh;
