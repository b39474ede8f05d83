//! What a line answers, and how it is printed.

ghost use Rattle.std.specs.Prelude.{Some, string_bytes};
ghost use Rattle.sheets.specs.Answers.{PrintsLine};

use std::fmt;
use tables::Refusal;

/// What a line answers that is not refused.
#[derive(Drop)]
pub enum Answer {
    /// The call is done.
    Done,
    /// A whole number, which may be negative.
    Number(i64),
    /// A number of loads.
    Count(u64),
    /// The number of each unit, in the order of the row.
    Made(Vec<u32>),
}

/// An answer prints with one space before each of its words.
impl fmt::Display for Answer {
    ghost use Rattle.sheets.specs.Answers.{answer_text};

    ghost output = { λ answer. Some (answer_text answer) };

    fn fmt<W: fmt::Write>(&self, f: &mut fmt::Formatter<W>) -> fmt::Result {
        match self {
            Answer::Done => write!(f, " ok"),
            Answer::Number(number) => write!(f, " {number}"),
            Answer::Count(count) => write!(f, " {count}"),
            Answer::Made(numbers) => {
                for number in numbers {
                    write!(f, " {number}")?;
                }
                Ok(())
            }
        }
    }
}

/// A refusal that is printed: its number and its place.
#[derive(Clone, Copy)]
pub(crate) struct Refused {
    number: u32,
    place: u64,
}

/// Want of memory is no refusal to print: it is given back.
impl TryFrom<Refusal> for Refused {
    type Error = Refusal;

    ghost use Rattle.sheets.specs.Answers.{TakesRefusal};

    ghost try_from_gives = { TakesRefusal };

    fn try_from(refusal: Refusal) -> Result<Refused, Refusal> {
        match (refusal.number(), refusal.place()) {
            (Some(number), Some(place)) => Ok(Refused { number, place }),
            _ => Err(refusal),
        }
    }
}

/// A refusal prints with one space before each of its words.
impl fmt::Display for Refused {
    ghost use Rattle.sheets.specs.Answers.{refused_text};

    ghost output = { λ refused. Some (refused_text refused.number refused.place) };

    fn fmt<W: fmt::Write>(&self, f: &mut fmt::Formatter<W>) -> fmt::Result {
        let Refused { number, place } = *self;
        write!(f, " no {number} {place}")
    }
}

/// Prints a line's number and its outcome. Want of memory is no outcome to print: it ends the sheet.
pub(crate) fn print_line(
    out: &mut String,
    line: usize,
    outcome: Result<Answer, Refusal>,
) -> Result<(), Refusal>
    ensures { PrintsLine line outcome (string_bytes out.old) result (string_bytes out.new) }
{
    match outcome {
        Ok(answer) => writeln!(out, "{line}{answer}")?,
        Err(refusal) => {
            let refused = Refused::try_from(refusal)?;
            writeln!(out, "{line}{refused}")?
        }
    }
    Ok(())
}
