//! Whether a file is well-formed, and where its first fault lies.

ghost use Rattle.std.specs.Prelude.{◌≡◌, ◌^◌, ◌<◌, length, take, Decides, MatchResult};
ghost use Rattle.files.specs.Faults.{Fault, FieldFault, FieldWhole};
ghost use Rattle.files.specs.Fields.{Bytes};
ghost use Rattle.files.specs.Layout.{Kept, SizeFits, WellFormed, fields, letters};

use crate::reading::{base, other, others, units, version};
use tables::{LARGEST_BASE, MOST_UNITS};

/// The letters at the front of a file.
pub(crate) const LETTERS: &[u8] = b"RTB";

/// The version that a file names.
pub(crate) const VERSION: u16 = 1;

/// Whether the letters stand at the front.
fn lettered(file: &[u8]) -> bool
    ensures { Decides result (take 3 file.now ≡ letters) }
{
    file.starts_with(LETTERS)
}

/// Refuses a field that is cut short or breaks its rule, with the offset of the fault.
fn check_field(file: &[u8], start: usize, end: usize, keeps: bool) -> Result<(), usize>
    ensures { MatchResult result (λ _. FieldWhole file.now end keeps) (FieldFault file.now start end keeps) }
{
    if file.len() < end {
        return Err(file.len());
    }
    keeps.then_some(()).ok_or(start)
}

/// Refuses the first fault among the letters, the version, the number of units and the base.
fn check_head(file: &[u8]) -> Result<(), usize>
    ensures { MatchResult result (λ _. Kept file.now 4) (Fault file.now) }
{
    check_field(file, 0, 3, lettered(file))?;
    check_field(file, 3, 5, version(file) == VERSION)?;
    check_field(file, 5, 6, (1..=MOST_UNITS).contains(&units(file)))?;
    check_field(file, 6, 8, (1..=LARGEST_BASE).contains(&base(file)))
}

/// Whether the size of the other unit at a place keeps its rule.
fn size_fits(file: &[u8], place: usize) -> bool
    requires { place < 2 ^ 16 }
    ensures { Decides result (SizeFits file.now place) }
{
    let size = other(file, place);
    size > 0 && u32::from(size) != base(file) && (place == 0 || other(file, place - 1) < size)
}

/// Refuses the first fault among the sizes of the other units.
fn check_sizes(file: &[u8]) -> Result<(), usize>
    requires { Kept file.now 4 }
    ensures { MatchResult result (λ _. Kept file.now (fields file.now)) (Fault file.now) }
{
    // `(0..others(file)).try_for_each(|place| ..)` needs a closure with clauses of its own, and is no plainer.
    for place in 0..others(file) {
        check_field(file, 8 + 2 * place, 10 + 2 * place, size_fits(file, place))?;
    }
    Ok(())
}

/// Refuses a file whose fields are kept, but whose entries are cut short or followed by more bytes.
fn check_length(file: &[u8]) -> Result<(), usize>
    requires { Kept file.now (fields file.now) }
    ensures { MatchResult result (λ _. WellFormed file.now × Bytes file.now) (Fault file.now) }
{
    let length = file.len();
    let proper = 8 + 2 * others(file) + 4 * base(file) as usize;
    if length != proper {
        return Err(length.min(proper));
    }
    Ok(())
}

/// Refuses a file that is not well-formed, with the offset of its first fault.
pub(crate) fn check_layout(file: &[u8]) -> Result<(), usize>
    ensures { MatchResult result (λ _. WellFormed file.now × Bytes file.now) (Fault file.now) }
{
    check_head(file)?;
    check_sizes(file)?;
    check_length(file)
}
