//! The candidates of a merge: a load, and the position of the unit that leads to it.

ghost use Rattle.books.specs.Candidates.{sooner, sooner_apart, sooner_ranks};

use waiting::Queued;

/// A load that a unit leads to from an earlier one. The lower load comes first, and at one load the earlier position.
#[derive(Clone, Copy, PartialEq, Eq, PartialOrd, Ord)]
pub(crate) struct Candidate {
    pub(crate) load: u32,
    pub(crate) position: usize,
}

impl Queued for Candidate {
    ghost before = { sooner };

    ghost ranks = { sooner_ranks };

    ghost apart = { sooner_apart };

    fn precedes(&self, other: &Candidate) -> bool {
        self < other
    }
}
