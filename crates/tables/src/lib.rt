//! Tables of least loads: what a table source is, what is read from any of them, and why a call is refused.
#![tactic(auto)]

mod making;
mod missing;
mod ranges;
mod refusals;
mod rules;
mod showing;
mod sources;
mod stepping;

pub use making::make;
pub use missing::{gaps, largest};
pub use ranges::{LARGEST_BASE, LARGEST_SIZE, MOST_UNITS, check_range};
pub use refusals::Refusal;
pub use rules::certificate_holds;
pub use showing::Showing;
pub use sources::{Entries, Source};
pub use stepping::steps_up;
