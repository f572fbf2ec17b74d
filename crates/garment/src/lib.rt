// The garment array: what callers name, in one place.
#![tactic(auto)]

pub use array::build;
pub use questions::answer::{Coordinates, Reached};
pub use questions::backs::{left_back, right_back};
pub use questions::ends::{edge, source};
pub use questions::fronts::{left_front, right_front};
pub use questions::point::point;
pub use questions::walk::target;
pub use rebuild::rebuild;
pub use tables::limits::{MOST_VERTICES, UNUSED};
pub use tables::refusal::Refusal;
