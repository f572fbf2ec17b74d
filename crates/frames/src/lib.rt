// Digits and frames, each read and written in its part of a buffer.
#![tactic(auto)]

pub mod digit;
pub mod frame;
pub mod line;

pub use digit::{number_at, put_digits};
pub use frame::{put_edge, put_head, put_refusal, put_triple};
pub use line::is_line;
