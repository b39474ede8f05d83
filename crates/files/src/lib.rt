//! The table file: a row of units and its table of least loads as bytes.
#![tactic(auto)]

mod checks;
mod fields;
mod judging;
mod layout;
mod making;
mod reading;
mod saving;
mod stepping;
mod unjudged;
mod view;

pub use judging::judge;
pub use making::make_from;
pub use reading::{base, entry, size, units};
pub use saving::save;
