//! Making a load from the units of a file.

ghost use Rattle.files.specs.Making.{MakeFrom};

use crate::judging::judge;
use crate::view::View;
use tables::{Refusal, make};

/// Writes the numbers of units that make a load from the row of a file, one for each unit, and says how many there are.
/// A file that is not true is refused as `judge` refuses it. Where the call is refused the memory stays as it is.
pub fn make_from(file: &[u8], load: u64, numbers: &mut [u32]) -> Result<usize, Refusal>
    ensures { MakeFrom file.now load numbers.old result numbers.new }
{
    judge(file)?;
    let view = View::new(file);
    make(&view, load, numbers)
}
