// The questions, put to any array that somebody lends, built or torn. No function asks anything of its caller.
#![tactic(auto)]

pub mod answer;
mod array;
pub mod backs;
mod edge;
pub mod ends;
pub mod fronts;
mod order;
pub mod point;
pub mod walk;
