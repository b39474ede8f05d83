//! What a book answers of its row: the loads that its units do not make, and the units that others can stand in for.

ghost use Rattle.std.specs.Prelude.{◌≡◌, Decides, MatchResult};
ghost use Rattle.tables.specs.Missing.{GreatestMissing, MissingCount};
ghost use Rattle.tables.specs.Rows.{Makes};
ghost use Rattle.tables.specs.Unmade.{RowUnending};
ghost use Rattle.books.specs.Books.{row_of};
ghost use Rattle.books.specs.Calls.{Spares};
ghost use Rattle.books.specs.Units.{Spare, has};

use super::Book;
use crate::sizes::{find, multiple, multiple_of_some};
use tables::Refusal;

impl Book {
    /// The greatest whole number that the units of the row do not make, -1 where they make every load.
    /// Refused where the loads that they do not make never end.
    pub fn largest(&self) -> Result<i64, Refusal>
        ensures { MatchResult result (GreatestMissing (Makes (row_of self.now))) (RowUnending (row_of self.now)) }
    {
        tables::largest(self)
    }

    /// How many loads the units of the row do not make.
    /// Refused where there is no end of them.
    pub fn gaps(&self) -> Result<u64, Refusal>
        ensures { MatchResult result (MissingCount (Makes (row_of self.now))) (RowUnending (row_of self.now)) }
    {
        tables::gaps(self)
    }

    /// Whether a size is in the row.
    fn holds(&self, size: u32) -> bool
        ensures { result ≡ has size (row_of self.now) }
    {
        size == u32::from(self.base) || find(self.others.as_slice(), size).is_ok()
    }

    /// Whether a size is a multiple of another unit of the row.
    fn makes_up(&self, size: u32) -> bool
        ensures { Decides result (Spare (row_of self.now) size) }
    {
        multiple(u32::from(self.base), size) || multiple_of_some(self.others.as_slice(), size)
    }

    /// Whether an admitted size is a multiple of another admitted size, the base among them.
    pub fn spare(&self, size: u32) -> Result<bool, Refusal>
        ensures { Spares (row_of self.now) size result }
    {
        if !self.holds(size) {
            return Err(Refusal::NotAdmitted(size));
        }
        Ok(self.makes_up(size))
    }
}
