//! The step at a remainder of a file: the unit by which its entry is reached from another entry.

ghost use Rattle.std.specs.Prelude.{◌≡◌};
ghost use Rattle.files.specs.Layout.{file_entry, file_row};
ghost use Rattle.tables.specs.Steps.{step_at};

use crate::reading::{other, units};
use crate::unjudged::Unjudged;
use tables::steps_up;

/// The position in the row of the first other unit by which the entry at a remainder is reached.
pub(crate) fn step(file: &[u8], remainder: u32) -> Option<usize>
    ensures { result ≡ step_at (file_row file.now) (file_entry file.now) remainder }
{
    let entries = Unjudged { file };
    (1..units(file)).find(|&position| steps_up(&entries, remainder, other(file, position - 1)))
}
