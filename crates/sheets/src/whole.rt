//! A whole sheet: its lines in their order, and the two inputs that are refused as a whole.

ghost use Rattle.std.specs.Prelude.{◌≡◌, length, None, Err, string_bytes, MatchResult};
ghost use Rattle.tables.specs.declared.refusals.Refusal.TheVariants.{NoMemory};
ghost use Rattle.sheets.specs.Answers.{Printed};
ghost use Rattle.sheets.specs.Sheets.{Prints, SheetPrints};
ghost use Rattle.sheets.specs.Splitting.{lines_of};

use crate::answers::print_line;
use crate::sheet::Sheet;
use std::alloc::Global;
use tables::Refusal;

/// How many bytes a sheet may have.
pub const LONGEST: usize = 65_536;

/// What the lines of an input print.
fn answer_lines(heap: Global, input: &[u8]) -> Result<String, Refusal>
    ensures { MatchResult result (λ out. Prints 1 None (lines_of input.now) (string_bytes out)) (λ reason. reason ≡ NoMemory) }
{
    let mut out = String::new(heap);
    let mut sheet = Sheet::new(heap)?;
    for (index, line) in input.split_inclusive(|&b| b == b'\n').enumerate() {
        let outcome = sheet.answer(line);
        print_line(&mut out, index + 1, outcome)?;
    }
    Ok(out)
}

/// What a sheet that is refused as a whole prints.
fn refuse_sheet(heap: Global, reason: Refusal) -> Result<String, Refusal>
    ensures { MatchResult result (λ out. Printed 0 (Err reason) (string_bytes out)) (λ reason. reason ≡ NoMemory) }
{
    let mut out = String::new(heap);
    print_line(&mut out, 0, Err(reason))?;
    Ok(out)
}

/// What a sheet prints, from its bytes. It fails only for want of memory.
pub fn answer_sheet(heap: Global, input: &[u8]) -> Result<String, Refusal>
    ensures { MatchResult result (λ out. SheetPrints input.now (string_bytes out)) (λ reason. reason ≡ NoMemory) }
{
    if input.len() > LONGEST {
        return refuse_sheet(heap, Refusal::NoRoom(LONGEST));
    }
    if input.is_empty() {
        return refuse_sheet(heap, Refusal::Unreadable(1));
    }
    answer_lines(heap, input)
}
