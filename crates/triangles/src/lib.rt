// The triangle table of a mesh (SPECIFICATION, sections 2 and 4): numbers 3 to 8 checked, and the reverse of each side found.
#![tactic(auto)]

mod check;
mod corners;
mod outer;
mod round;
mod sides;
mod table;

pub use check::check_triangles;
