//! The day sheet: from the bytes of a sheet to the text that it prints.
#![tactic(auto)]

mod answers;
mod sheet;
mod whole;

pub use whole::{LONGEST, answer_sheet};
