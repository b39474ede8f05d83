//! What a pair stores.

ghost use Rattle.std.specs.Prelude.{◌≡◌, ◌≤◌, ◌≢◌};
ghost use Rattle.sources.specs.Pairs.{Inverts};

/// A base and one other unit with no common divisor above 1. It is a table source: the entry at a remainder is the least
/// load of that remainder that the two units make.
#[derive(Clone, Copy)]
pub struct Pair {
    pub(super) base: u32,
    pub(super) other: u32,
    /// How many of the other unit leave 1 by the base.
    pub(super) inverse: u32,
    ghost low: { 1 ≤ base },
    ghost high: { base ≤ 4096 },
    ghost some: { 1 ≤ other },
    ghost fits: { other ≤ 65535 },
    ghost apart: { other ≢ base },
    ghost inverts: { Inverts base other inverse },
    ghost small: { inverse ≤ base },
}
