//! The lines of a day sheet: what a readable line is, and where any other one breaks off.
#![tactic(auto)]

mod line;
mod numbers;
mod tails;

pub use line::{Line, read};
