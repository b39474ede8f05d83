//! A book and its table file: how a book is saved, and how a file is restored into a book.

ghost use Rattle.std.specs.Prelude.{◌≡◌, ℕ, ◌≤◌, take, IfOk, vec_len, vec_capacity};
ghost use Rattle.files.specs.Judged.{TrueFile};
ghost use Rattle.files.specs.Layout.{file_base, file_entry, file_others, file_units};
ghost use Rattle.files.specs.Rounds.{ReadsBack, WrittenAgain};
ghost use Rattle.files.specs.Written.{Saves};
ghost use Rattle.tables.specs.Rows.{Table};
ghost use Rattle.tables.specs.Tables.{entry_of};
ghost use Rattle.books.specs.Books.{row_of, table_of};
ghost use Rattle.books.specs.Calls.{Restores};

use super::Book;
use crate::stored::Stored;
use files::judge;
use tables::{Refusal, Showing, Source};

/// Puts the sizes that a file lists after its base in place of others.
fn refill_sizes(sizes: &mut Vec<u16>, file: &[u8])
    requires some { 1 ≤ file_units file.now }
    requires few { file_units file.now ≤ 16 }
    requires room { 15 ≤ vec_capacity sizes.old }
    ensures items { sizes.new.items ≡ file_others file.now }
    ensures room { 15 ≤ vec_capacity sizes.new }
{
    // `extend` may fail for want of memory, and its contract does not say that it does not where there is room.
    sizes.clear();
    for position in 1..files::units(file) {
        sizes.push_reserved(files::size(file, position).unwrap());
    }
}

impl Stored {
    /// Puts the entries that a true file lists in place of others.
    fn refill(&mut self, file: &[u8])
        requires accepted { TrueFile file.now }
        requires again { WrittenAgain file.now }
        ensures entries { (r : ℕ) → entry_of self.new.entries.items r ≡ file_entry file.now r }
        ensures len { vec_len self.new.entries ≡ file_base file.now }
    {
        let base = files::base(file);
        // All are absent first, and then written in place: pushed one by one they would change the base in the loop, by which
        // each entry leaves its remainder.
        self.entries.clear();
        self.entries.resize(base as usize, None).unwrap();
        for remainder in 0..base {
            self.entries[remainder as usize] = files::entry(file, remainder);
        }
    }
}

impl Book {
    /// Writes the row and the table of the book as a file at the front of the memory, and says how long it is.
    /// Later bytes stay as they are, and so does every byte where the memory is too short. The file is one that `restore`
    /// accepts, and it gives back the book's row and entries.
    pub fn save(&self, out: &mut [u8]) -> Result<usize, Refusal>
        ensures saves { Saves (row_of self.now) (table_of self.now) out.old result out.new }
        ensures back { IfOk result (λ size. ReadsBack (row_of self.now) (table_of self.now) (take size out.new)) }
    {
        files::save(self, out)
    }

    /// Puts the row and the table of a file in place of the book's own. A file that is not well-formed, or whose entries are
    /// not the true table of its own row, is refused and leaves the book as it was.
    pub fn restore(&mut self, file: &[u8]) -> Result<(), Refusal>
        ensures turns { Restores self.old file.now result self.new }
        ensures table { Table (row_of self.new) (table_of self.new) }
    {
        judge(file)?;
        refill_sizes(&mut self.others, file);
        self.stored.refill(file);
        self.base = files::base(file) as u16;
        Ok(())
    }
}
