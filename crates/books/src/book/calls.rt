//! The calls that make a book and change its row.

ghost use Rattle.std.specs.Prelude.{◌≡◌, length};
ghost use Rattle.tables.specs.Rows.{Table};
ghost use Rattle.books.specs.Books.{row_of, table_of};
ghost use Rattle.books.specs.Calls.{Admits, Opens, Withdraws};
ghost use Rattle.books.specs.Strips.{StripLeft};

use super::{Book, MOST_OTHERS};
use crate::rebuild::{Loads, Marks, tabulate};
use crate::sizes::find;
use crate::stored::Stored;
use std::alloc::Global;
use tables::{LARGEST_BASE, LARGEST_SIZE, Refusal, check_range};

impl Book {
    /// Opens a book of its base alone, a size of 1 to 4,096, and sets all memory aside that the book can ever need.
    pub fn open(heap: Global, base: u32) -> Result<Book, Refusal>
        ensures { Opens base result }
    {
        check_range(base, LARGEST_BASE)?;
        let others = Vec::with_capacity(heap, MOST_OTHERS)?;
        let base = base as u16;
        let stored = Stored::alone(heap, base)?;
        let loads = Loads::new(heap)?;
        Ok(Book {
            base,
            others,
            stored,
            loads,
        })
    }

    /// Admits a unit of 1 to 65,535 parcels: its size takes its ascending place among the others, and the table becomes the
    /// true one of the longer row. No entry can become too large for a table, since none is above 4,095 times 65,535.
    pub fn admit(&mut self, size: u32) -> Result<(), Refusal>
        ensures turns { Admits self.old size result self.new }
        ensures table { Table (row_of self.new) (table_of self.new) }
    {
        check_range(size, LARGEST_SIZE)?;
        if size == u32::from(self.base) {
            return Err(Refusal::AlreadyAdmitted(size));
        }
        let Err(at) = find(self.others.as_slice(), size) else {
            return Err(Refusal::AlreadyAdmitted(size));
        };
        if self.others.len() >= MOST_OTHERS {
            return Err(Refusal::RowFull);
        }
        self.stored.extend(size);
        self.others.insert(at, size as u16).unwrap();
        Ok(())
    }

    /// Withdraws an admitted unit other than the base: its size leaves the row, and the table becomes the true one of the
    /// smaller row, built afresh. The strip is lent for marks, a byte for each remainder. Those bytes are 0 again afterwards,
    /// whatever they were, done or refused, and the others are not touched; only a strip that is too short stays as it was.
    pub fn withdraw(&mut self, size: u32, strip: &mut [u8]) -> Result<(), Refusal>
        ensures turns { Withdraws self.old size (length strip.old) result self.new }
        ensures strip { StripLeft self.old.base strip.old strip.new result }
        ensures table { Table (row_of self.new) (table_of self.new) }
    {
        let m = usize::from(self.base);
        if strip.len() < m {
            return Err(Refusal::NoRoom(m));
        }
        self.take_out(size, &mut strip[..m])
    }

    /// The same over a strip of just a byte for each remainder, all of which the guard holds.
    fn take_out(&mut self, size: u32, strip: &mut [u8]) -> Result<(), Refusal>
        requires { length strip.old ≡ self.old.base }
        ensures turns { Withdraws self.old size (length strip.old) result self.new }
        ensures strip { StripLeft self.old.base strip.old strip.new result }
        ensures table { Table (row_of self.new) (table_of self.new) }
    {
        let marks = Marks { strip };
        let base = u32::from(self.base);
        if size == base {
            return Err(Refusal::IsBase(size));
        }
        let Ok(at) = find(self.others.as_slice(), size) else {
            return Err(Refusal::NotAdmitted(size));
        };
        let _ = self.others.remove(at);
        tabulate(
            self.others.as_slice(),
            &mut self.stored,
            marks.strip,
            &mut self.loads,
        );
        Ok(())
    }
}
