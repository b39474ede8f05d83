//! What several tests begin with and check.

use books::Book;
use std::alloc::Global;
use std::process::Abort;
use tables::{Entries, Refusal};

/// A book of a base and other units, admitted in this order.
pub fn book_of<const N: usize>(heap: Global, base: u32, others: [u32; N]) -> Result<Book, Refusal> {
    let mut book = Book::open(heap, base)?;
    for size in others {
        book.admit(size)?;
    }
    Ok(book)
}

/// Checks that the entries by the base 5 are these.
pub fn check_entries<E: Entries>(rt: &impl Abort, source: &E, entries: [u32; 5]) {
    assert_eq!(rt; source.base(), 5);
    for (remainder, entry) in (0..5).zip(entries) {
        assert_eq!(rt; source.least(remainder), Some(entry));
    }
    assert_eq!(rt; source.least(5), None);
}
