// What the engine's crates share: the limits, why a call is refused, and tables of numbers read as triangles and as edges.
#![tactic(auto)]

pub mod edge;
pub mod hand;
pub mod limits;
pub mod refusal;
pub mod side;
pub mod sided;
pub mod size;
pub mod table;
pub mod triangle;
