//! Pairs: a base and one other unit with no common divisor above 1. Their entries are found with no table.

mod showing;
mod stored;

ghost use Rattle.sources.specs.NewPairs.{New, pair_entry};
ghost use Rattle.sources.specs.PairLaws.{entry_past, paired_lawful};

use crate::divisors::solve;
pub use stored::Pair;
use tables::{Entries, LARGEST_BASE, LARGEST_SIZE, Refusal, Source, check_range};

impl Pair {
    /// The pair of a base and another unit. Refused, in this order, where the base is not 1 to 4,096, where the other unit
    /// is not 1 to 65,535, where the two are equal, and where they have a common divisor above 1: the greatest is named.
    pub fn new(base: u32, other: u32) -> Result<Pair, Refusal>
        ensures { New base other result }
    {
        check_range(base, LARGEST_BASE)?;
        check_range(other, LARGEST_SIZE)?;
        if other == base {
            return Err(Refusal::AlreadyAdmitted(other));
        }
        let found = solve(base, other);
        if found.divisor > 1 {
            return Err(Refusal::CommonDivisor(found.divisor));
        }
        Ok(Pair {
            base,
            other,
            inverse: found.times,
        })
    }
}

impl Entries for Pair {
    ghost modulus = { λ s. s.base };

    ghost entry = { pair_entry };

    ghost past = { λ s. entry_past s.base s.other s.inverse s.inverts };

    fn base(&self) -> u32 {
        self.base
    }

    fn least(&self, remainder: u32) -> Option<u32> {
        if remainder >= self.base {
            return None;
        }
        let turns = remainder * self.inverse % self.base;
        Some(turns * self.other)
    }
}

impl Source for Pair {
    ghost lawful = { λ s. paired_lawful s.base s.other s.inverse s.inverts s.low s.high s.fits };
}
