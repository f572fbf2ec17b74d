// The array of a mesh: both checks, then its references and its service bytes.
#![tactic(auto)]

mod accepted;
pub mod builder;
mod fill;

pub use builder::build;
