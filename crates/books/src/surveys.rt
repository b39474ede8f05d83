//! A survey: what a book answers for whatever past it has, and any other source beside it.

ghost use Rattle.std.specs.Prelude.{ℕ, List, ◌∷◌, is_ok};
ghost use Rattle.tables.specs.Made.{Make};
ghost use Rattle.books.specs.Calls.{Restores};
ghost use Rattle.books.specs.Pasts.{Event, Honest, Leads, restore, told};
ghost use Rattle.books.specs.Surveys.{AcceptsExactly, RowAnswers, SourceAnswers};

use crate::book::Book;
use tables::{Refusal, Showing, Source, gaps, largest, make};

/// What a survey answers: of the book, of another showing source, of another table source, and of a file.
#[derive(Drop)]
pub struct Findings {
    /// What making the load of the book's units answers.
    pub made: Result<usize, Refusal>,
    /// The greatest whole number that the book's units do not make.
    pub largest: Result<i64, Refusal>,
    /// How many loads the book's units do not make.
    pub gaps: Result<u64, Refusal>,
    /// What making the load of the other showing source's units answers.
    pub shown: Result<usize, Refusal>,
    /// The greatest whole number that the other source does not contain.
    pub greatest: Result<i64, Refusal>,
    /// How many loads the other source does not contain.
    pub missing: Result<u64, Refusal>,
    /// Whether the file was restored.
    pub restored: Result<(), Refusal>,
}

/// Surveys a book, another showing source and another table source, and restores a file into the book at the end.
///
/// The contract is the law over every past. For every base and every list of admits, withdrawals and restores, refused ones
/// included, that lead to this book: it answers for the row that the base and those calls tell, and which of them were
/// accepted is what the told rows decide. Any other showing source answers for its own row, any other source for what it
/// contains, and a file is restored exactly where it is a true one; then the past goes on with that call.
pub fn survey<S: Showing, T: Source>(
    book: &mut Book,
    load: u64,
    numbers: &mut [u32],
    showing: &S,
    places: &mut [u32],
    source: &T,
    file: &[u8],
) -> Findings
    ensures told { (base : ℕ) (past : List Event) → Leads base past book.old → RowAnswers (told base past) load numbers.old result.made numbers.new result.largest result.gaps }
    ensures honest { (base : ℕ) (past : List Event) → Leads base past book.old → Honest base past }
    ensures shown { Make (S.Showing.row showing.now) load places.old result.shown places.new }
    ensures source { SourceAnswers (T.Entries.modulus source.now) (T.Entries.entry source.now) result.greatest result.missing }
    ensures restored { (Restores book.old file.now result.restored book.new) × (AcceptsExactly file.now result.restored) }
    ensures onward { (base : ℕ) (past : List Event) → Leads base past book.old → Leads base (restore file.now (is_ok result.restored) ∷ past) book.new }
{
    let made = make(book, load, numbers);
    let highest = book.largest();
    let count = book.gaps();
    let shown = make(showing, load, places);
    let greatest = largest(source);
    let missing = gaps(source);
    let restored = book.restore(file);
    Findings {
        made,
        largest: highest,
        gaps: count,
        shown,
        greatest,
        missing,
        restored,
    }
}
