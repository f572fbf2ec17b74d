// A rebuild: the mesh whose references these are, from them alone.
#![tactic(auto)]

mod beside;
pub mod rebuilder;
mod targets;
mod verify;
mod writing;

pub use rebuilder::rebuild;
