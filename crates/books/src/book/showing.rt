//! A book as a showing source: its row is stored, and its steps are looked up among the entries.

ghost use Rattle.books.specs.Books.{row_of};

use super::Book;
use tables::{Showing, steps_up};

impl Showing for Book {
    ghost row = { λ b. row_of b };

    fn units(&self) -> usize {
        self.others.len() + 1
    }

    fn size(&self, position: usize) -> Option<u16> {
        match position.checked_sub(1) {
            None => Some(self.base),
            Some(place) => self.others.get(place).copied(),
        }
    }

    fn step(&self, remainder: u32) -> Option<usize> {
        let mut others = self.others.iter();
        let place = others.position(|&size| steps_up(self, remainder, size));
        place.map(|place| place + 1)
    }
}
