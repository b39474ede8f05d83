//! A sheet that is being carried out: the book that stands, and what each line does and answers.

ghost use Rattle.std.specs.Prelude.{◌≡◌, vec_len, None, IfOk};
ghost use Rattle.books.specs.Books.{row_of};
ghost use Rattle.sheets.specs.Lines.{Answers, Carries, MakesOrMemory};

use crate::answers::Answer;
use books::Book;
use lines::{Line, read};
use std::alloc::{AllocError, Global};
use tables::{LARGEST_BASE, MOST_UNITS, Refusal, make};

/// What a sheet keeps from line to line: the book that an accepted line opened last, and a strip for withdrawals to work in,
/// with a byte for each remainder by the largest base.
#[derive(Drop)]
pub(crate) struct Sheet {
    heap: Global,
    book: Option<Book>,
    strip: Vec<u8>,
    ghost room: { vec_len strip ≡ 4096 },
}

/// The numbers of units that make a load, in the order of the book's row.
fn make_load(heap: Global, book: &Book, load: u32) -> Result<Vec<u32>, Refusal>
    ensures { MakesOrMemory (row_of book.now) load result }
{
    // An array and no `Vec`: a load that is refused takes no memory.
    let mut numbers = [0; MOST_UNITS];
    let units = make(book, u64::from(load), &mut numbers)?;
    Ok(Vec::from_slice(heap, &numbers[..units])?)
}

impl Sheet {
    ghost use Rattle.sheets.specs.Sheets.{UnlessMemory, standing};

    /// A sheet before its first line: no book stands.
    pub(crate) fn new(heap: Global) -> Result<Sheet, AllocError>
        ensures { IfOk result (λ sheet. standing sheet ≡ None) }
    {
        Ok(Sheet {
            heap,
            book: None,
            strip: vec![in heap; 0; LARGEST_BASE as usize]?,
        })
    }

    /// Carries a readable line out.
    fn carry_out(&mut self, line: Line) -> Result<Answer, Refusal>
        ensures { UnlessMemory result (Carries (standing self.old) line result (standing self.new)) }
    {
        match (line, &mut self.book) {
            (Line::Open(base), book) => {
                *book = Some(Book::open(self.heap, base)?);
                Ok(Answer::Done)
            }
            (_, None) => Err(Refusal::NoBook),
            (Line::Admit(size), Some(book)) => {
                book.admit(size)?;
                Ok(Answer::Done)
            }
            (Line::Withdraw(size), Some(book)) => {
                book.withdraw(size, self.strip.as_mut_slice())?;
                Ok(Answer::Done)
            }
            (Line::Make(load), Some(book)) => make_load(self.heap, book, load).map(Answer::Made),
            (Line::Largest, Some(book)) => book.largest().map(Answer::Number),
            (Line::Gaps, Some(book)) => book.gaps().map(Answer::Count),
        }
    }

    /// Reads a line and carries it out. An unreadable line changes nothing.
    pub(crate) fn answer(&mut self, bytes: &[u8]) -> Result<Answer, Refusal>
        ensures { UnlessMemory result (Answers (standing self.old) bytes.now result (standing self.new)) }
    {
        let line = read(bytes)?;
        self.carry_out(line)
    }
}
