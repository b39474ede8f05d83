//! The entries of a table, written from the loads of a merge.

ghost use Rattle.std.specs.Prelude.{◌≡◌, ℕ, ◌%◌, ◌<◌, length, slice_index, vec_len};
ghost use Rattle.books.specs.Leasts.{Entered};

use crate::stored::Stored;

impl Stored {
    /// Writes each of the loads at its remainder, and makes every other entry absent.
    pub(crate) fn enter(&mut self, loads: &[u32])
        requires { (j k : ℕ) → j < length loads.now → k < length loads.now → slice_index loads.now j % vec_len self.old.entries ≡ slice_index loads.now k % vec_len self.old.entries → j ≡ k }
        ensures entered { Entered (vec_len self.old.entries) loads.now (length loads.now) self.new.entries.items }
        ensures len { vec_len self.new.entries ≡ vec_len self.old.entries }
    {
        let base = self.base();
        self.entries.fill(None);
        for &load in loads {
            self.entries[(load % base) as usize] = Some(load);
        }
    }
}
