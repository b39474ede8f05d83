//! A showing source that is neither a book nor a pair: the units 5, 8 and 12 with their table written out.

ghost use Rattle.std.specs.Prelude.{[], ◌∷◌, refl};
ghost use Rattle.tables.specs.Tables.{entry_of};
ghost use Rattle.tables.specs.Written.{written_lawful};
ghost use Rattle.trials.specs.Sampled.{sampled};

use tables::{Entries, Showing, Source};

#[derive(Clone, Copy)]
pub struct Sample;

impl Entries for Sample {
    ghost modulus = { λ _. 5 };

    ghost entry = { λ _. entry_of sampled };

    ghost past = { λ _. (written_lawful sampled refl).past };

    fn base(&self) -> u32 {
        5
    }

    fn least(&self, remainder: u32) -> Option<u32> {
        match remainder {
            0 => Some(0),
            1 => Some(16),
            2 => Some(12),
            3 => Some(8),
            4 => Some(24),
            _ => None,
        }
    }
}

impl Source for Sample {
    ghost lawful = { λ _. written_lawful sampled refl };
}

impl Showing for Sample {
    ghost row = { λ _. 5 ∷ 8 ∷ 12 ∷ [] };

    fn units(&self) -> usize {
        3
    }

    fn size(&self, position: usize) -> Option<u16> {
        match position {
            0 => Some(5),
            1 => Some(8),
            2 => Some(12),
            _ => None,
        }
    }

    fn step(&self, remainder: u32) -> Option<usize> {
        match remainder {
            1 => Some(1),
            2 => Some(2),
            3 => Some(1),
            4 => Some(1),
            _ => None,
        }
    }
}
