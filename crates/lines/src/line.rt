//! A line: a letter, its numbers, and byte 10 at the end.

ghost use Rattle.lines.specs.Lines.{Reads};

use crate::tails::Tail;
use tables::Refusal;

/// A readable line.
#[derive(Clone, Copy, PartialEq, Eq, Debug)]
pub enum Line {
    /// `B` and a base: opens a book.
    Open(u32),
    /// `A` and a size: admits a unit.
    Admit(u32),
    /// `W` and a size: withdraws a unit.
    Withdraw(u32),
    /// `M` and a load: asks with how many of each unit it can leave.
    Make(u32),
    /// `L`: asks for the largest load that cannot leave.
    Largest,
    /// `G`: asks how many loads cannot leave.
    Gaps,
}

/// The line that the bytes spell, its end included.
/// Refused with the column, from 1, of the first byte at which no readable line goes on: one past the last byte where the bytes end too early.
pub fn read(bytes: &[u8]) -> Result<Line, Refusal>
    ensures { Reads bytes.now result }
{
    let [letter, rest @ ..] = bytes else {
        return Err(Refusal::Unreadable(1));
    };
    let mut tail = Tail::after_letter(rest);
    match char::from(*letter) {
        'B' => tail.last_number().map(Line::Open),
        'A' => tail.last_number().map(Line::Admit),
        'W' => tail.last_number().map(Line::Withdraw),
        'M' => tail.last_number().map(Line::Make),
        'L' => tail.end().and(Ok(Line::Largest)),
        'G' => tail.end().and(Ok(Line::Gaps)),
        _ => Err(Refusal::Unreadable(1)),
    }
}
