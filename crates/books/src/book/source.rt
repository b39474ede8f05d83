//! A book as a table source: its entries are stored.

ghost use Rattle.books.specs.Books.{table_of};
ghost use Rattle.books.specs.Lawful.{book_lawful, book_past};

use super::Book;
use tables::{Entries, Source};

impl Entries for Book {
    ghost modulus = { λ b. b.base };

    ghost entry = { λ b. table_of b };

    ghost past = { λ b. book_past b };

    fn base(&self) -> u32 {
        u32::from(self.base)
    }

    fn least(&self, remainder: u32) -> Option<u32> {
        self.stored.least(remainder)
    }
}

impl Source for Book {
    ghost lawful = { λ b. book_lawful b };
}
