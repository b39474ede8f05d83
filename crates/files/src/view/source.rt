//! A view over a true file as a showing source: it reads its answers from the file's bytes.

ghost use Rattle.files.specs.Entries.{entry_past};
ghost use Rattle.files.specs.Layout.{file_base, file_entry, file_row};
ghost use Rattle.files.specs.Viewed.{view_lawful};

use super::View;
use crate::{reading, stepping};
use tables::{Entries, Showing, Source};

// An unjudged file answers the same, but is no source: the view has the facts that make it one, and they are about its own bytes.
impl Entries for View<'_> {
    ghost modulus = { λ v. file_base v.file.now };

    ghost entry = { λ v. file_entry v.file.now };

    ghost past = { λ v. entry_past v.file.now };

    fn base(&self) -> u32 {
        reading::base(self.file)
    }

    fn least(&self, remainder: u32) -> Option<u32> {
        reading::entry(self.file, remainder)
    }
}

impl Source for View<'_> {
    ghost lawful = { λ v. view_lawful v };
}

impl Showing for View<'_> {
    ghost row = { λ v. file_row v.file.now };

    fn units(&self) -> usize {
        reading::units(self.file)
    }

    fn size(&self, position: usize) -> Option<u16> {
        reading::size(self.file, position)
    }

    fn step(&self, remainder: u32) -> Option<usize> {
        stepping::step(self.file, remainder)
    }
}
