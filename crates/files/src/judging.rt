//! The verdict on a file.

ghost use Rattle.files.specs.Faults.{FirstFault};
ghost use Rattle.files.specs.Judged.{Judges};
ghost use Rattle.files.specs.Rounds.{WrittenAgain};
ghost use Rattle.std.specs.Prelude.{OnOk};

use crate::checks::check_entries;
use crate::layout::check_layout;
use tables::Refusal;

/// Whether a file is well-formed and its entries are the true table of its row.
/// A file that is not well-formed is refused with the offset of its first fault, and any other with the lowest remainder at
/// which one of the four rules fails. An accepted file is just what writing its own row and entries gives.
pub fn judge(file: &[u8]) -> Result<(), Refusal>
    ensures verdict { Judges file.now result }
    ensures again { OnOk result (WrittenAgain file.now) }
    ensures fault { FirstFault file.now }
{
    check_layout(file).map_err(Refusal::Malformed)?;
    if let Err(remainder) = check_entries(file) {
        return Err(Refusal::Untrue(remainder));
    }
    Ok(())
}
