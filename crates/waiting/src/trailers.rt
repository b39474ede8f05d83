//! Trailers, which wait by minute, then by line, then by load.

ghost use Rattle.waiting.specs.Trailers.{earlier, earlier_apart, earlier_ranks};

use crate::list::Queued;

/// A trailer that waits. The lower minute comes first, at the same minute the lower line, and at the same line too the
/// lower load: so two that differ never tie.
#[derive(Clone, Copy, PartialEq, Eq, PartialOrd, Ord, Debug)]
pub struct Trailer {
    pub minute: u32,
    pub line: usize,
    pub load: u32,
}

impl Queued for Trailer {
    ghost before = { earlier };

    ghost ranks = { earlier_ranks };

    ghost apart = { earlier_apart };

    fn precedes(&self, other: &Trailer) -> bool {
        self < other
    }
}
