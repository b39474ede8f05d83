//! A pair as a showing source: its row is the two units, and every entry but that of 0 is reached by the other unit.

ghost use Rattle.sources.specs.NewPairs.{pair_row};

use super::Pair;
use tables::Showing;

impl Showing for Pair {
    ghost row = { pair_row };

    fn units(&self) -> usize {
        2
    }

    fn size(&self, position: usize) -> Option<u16> {
        match position {
            0 => Some(self.base as u16),
            1 => Some(self.other as u16),
            _ => None,
        }
    }

    fn step(&self, remainder: u32) -> Option<usize> {
        let base = self.base;
        if remainder == 0 || remainder >= base {
            return None;
        }
        Some(1)
    }
}
