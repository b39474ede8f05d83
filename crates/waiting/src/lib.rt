//! Waiting lists over lent slots: whatever was put in comes out with the least first.
//!
//! A list is a plain one: those that wait stand in the first slots, unsorted, and each take searches all of
//! them for the least. So there is no invariant that speaks of the order. Entries may be of any kind that has a total
//! order in which different ones never tie (`Queued`). Trailers are such a kind.
//!
//! What waits is defined for every value of the type: the first `len` slots, or all of them where there are fewer. So
//! no call asks anything of its caller.
#![tactic(auto)]

mod list;
mod trailers;

pub use list::{Queued, Waiting};
pub use trailers::Trailer;
