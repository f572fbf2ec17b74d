// An array's text read, and what the programs `answers` and `rebuildlines` write for it.
#![tactic(auto)]

mod answering;
mod field;
mod lines;
mod reading;
mod rebuilding;

pub use answering::{ANSWERS_LIMIT, answer_lines};
pub use frames::frame::{ARRAY_LIMIT, MESH_LIMIT};
pub use rebuilding::rebuild_lines;
