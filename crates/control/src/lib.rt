//! The calls for a control program in C: numbers and byte strings go in, one number of 64 bits comes out.
#![tactic(auto)]

mod calls;
mod packing;

pub use calls::{tovleng_judge, tovleng_make};
