//! The entries that bytes list as a file, before anything is known of them.

ghost use Rattle.files.specs.Entries.{entry_past};
ghost use Rattle.files.specs.Layout.{file_base, file_entry};

use crate::reading;
use tables::Entries;

/// A file that was not judged.
#[derive(Clone, Copy)]
pub(crate) struct Unjudged<'a> {
    pub(crate) file: &'a [u8],
}

impl Entries for Unjudged<'_> {
    ghost modulus = { λ u. file_base u.file.now };

    ghost entry = { λ u. file_entry u.file.now };

    ghost past = { λ u. entry_past u.file.now };

    fn base(&self) -> u32 {
        reading::base(self.file)
    }

    fn least(&self, remainder: u32) -> Option<u32> {
        reading::entry(self.file, remainder)
    }
}
