//! Books of unit sizes: a base, the other units of the row, and the true table of that row.
#![tactic(auto)]

mod book;
mod rebuild;
mod rings;
mod sizes;
mod stored;
mod surveys;

pub use book::Book;
pub use surveys::{Findings, survey};
