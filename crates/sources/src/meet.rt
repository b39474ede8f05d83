//! Meets: what two table sources have in common.

ghost use Rattle.std.specs.Prelude.{◌≡◌, MatchResult};
ghost use Rattle.sources.specs.MeetLaws.{met_lawful, met_past};
ghost use Rattle.sources.specs.Meets.{Meets, Unmet, met};

use tables::{Entries, Refusal, Source};

/// Two table sources, lent or handed over. At equal bases it is the table source of the loads that both contain; at other
/// bases, which `Meet::new` refuses, it is the first source alone.
#[derive(Drop)]
pub struct Meet<A, B> {
    first: A,
    second: B,
}

/// Two table sources that do not meet, given back with the reason.
#[derive(Drop)]
pub struct Unequal<A, B> {
    pub reason: Refusal,
    pub first: A,
    pub second: B,
}

impl<A: Source, B: Source> Meet<A, B> {
    /// The meet of two sources. Refused where their bases differ: then both are given back.
    pub fn new(first: A, second: B) -> Result<Meet<A, B>, Unequal<A, B>>
        ensures { MatchResult result
            (λ meet. (meet.first ≡ first) × (meet.second ≡ second)
            × Meets (A.Entries.modulus first) (B.Entries.modulus second) (A.Entries.entry first) (B.Entries.entry second))
            (λ back. (back.first ≡ first) × (back.second ≡ second)
            × Unmet (A.Entries.modulus first) (B.Entries.modulus second) back.reason) }
    {
        let base = second.base();
        if first.base() == base {
            Ok(Meet { first, second })
        } else {
            Err(Unequal {
                reason: Refusal::BasesDiffer(base),
                first,
                second,
            })
        }
    }
}

impl<A: Source, B: Source> Entries for Meet<A, B> {
    ghost modulus = { λ s. A.Entries.modulus s.first };

    ghost entry = { λ s. met
        (A.Entries.modulus s.first) (B.Entries.modulus s.second)
        (A.Entries.entry s.first) (B.Entries.entry s.second) };

    ghost past = { λ s. met_past
        (A.Entries.modulus s.first) (B.Entries.modulus s.second)
        (A.Entries.entry s.first) (B.Entries.entry s.second)
        (A.Entries.past s.first) };

    fn base(&self) -> u32 {
        self.first.base()
    }

    fn least(&self, remainder: u32) -> Option<u32> {
        let first = self.first.least(remainder);
        if self.first.base() != self.second.base() {
            return first;
        }
        match (first, self.second.least(remainder)) {
            (Some(a), Some(b)) => Some(a.max(b)),
            _ => None,
        }
    }
}

impl<A: Source, B: Source> Source for Meet<A, B> {
    ghost lawful = { λ s. met_lawful
        (A.Entries.modulus s.first) (B.Entries.modulus s.second)
        (A.Entries.entry s.first) (B.Entries.entry s.second)
        (A.Source.lawful s.first) (B.Source.lawful s.second) };
}

/// A meet that is refused lets both sources go where `?` hands the reason on.
// Written out, since contracts say which refusal a `?` makes, and a derived conversion says nothing of it.
impl<A: Drop, B: Drop> From<Unequal<A, B>> for Refusal {
    ghost from_gives = { λ unequal r. r ≡ unequal.reason };

    fn from(unequal: Unequal<A, B>) -> Refusal {
        unequal.reason
    }
}
