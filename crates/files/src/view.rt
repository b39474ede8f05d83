//! A view over the bytes of a true file, which needs no memory of its own.

ghost use Rattle.std.specs.Prelude.{◌≡◌, ◌≤◌, true, length};
ghost use Rattle.files.specs.Entries.{is_zero};
ghost use Rattle.files.specs.Judged.{TrueFile};
ghost use Rattle.files.specs.Layout.{file_base, file_entry, file_others, file_row, file_units};
ghost use Rattle.files.specs.Ordered.{Apart, Rises, Sized};
ghost use Rattle.tables.specs.Rows.{Row};
ghost use Rattle.tables.specs.Tests.{AllClosed, AllStepped, Leaves};

pub(crate) mod source;

/// A file that was judged true.
#[derive(Clone, Copy)]
pub(crate) struct View<'a> {
    file: &'a [u8],
    ghost some: { 1 ≤ file_units file.now },
    ghost few: { length (file_row file.now) ≤ 16 },
    ghost high: { file_base file.now ≤ 4096 },
    ghost sized: { Sized (file_row file.now) },
    ghost rises: { Rises (file_row file.now) },
    ghost apart: { Apart (file_row file.now) },
    ghost start: { is_zero (file_entry file.now 0) ≡ true },
    ghost leaves: { Leaves (file_base file.now) (file_entry file.now) },
    ghost closed: { AllClosed (file_base file.now) (file_others file.now) (file_entry file.now) },
    ghost stepped: { AllStepped (file_base file.now) (file_others file.now) (file_entry file.now) },
}

impl<'a> View<'a> {
    /// The view over a true file.
    pub(crate) fn new(file: &'a [u8]) -> View<'a>
        requires judged { TrueFile file.now }
        requires ordered { Row (file_row file.now) }
        ensures { result.file.now ≡ file.now }
    {
        View { file }
    }
}
