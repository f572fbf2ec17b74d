// A mesh read from its text, its array built, and the array's text or the refusal's line written.
#![tactic(auto)]

mod reading;
pub mod text;
mod writing;

pub use text::mesh_lines;
