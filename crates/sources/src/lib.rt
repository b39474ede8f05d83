//! The table sources that store no table: pairs of units, and what two sources have in common.
#![tactic(auto)]

mod divisors;
mod meet;
mod pair;

pub use meet::{Meet, Unequal};
pub use pair::Pair;
