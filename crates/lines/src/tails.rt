//! What stands after the letter of a line.

ghost use Rattle.std.specs.Prelude.{◌≡◌, ◌+◌, ◌^◌, ◌<◌, ◌≤◌, [], ◌∷◌, ◌++◌, length, drop, decimal, MatchResult};
ghost use Rattle.lines.specs.Numbers.{Bare};
ghost use Rattle.lines.specs.Tails.{Breaks, End, LastNumber, Passes, Spaced};

use crate::numbers::number;
use tables::Refusal;

/// The bytes that are left of a line, and the column of the first of them.
/// Its readers refuse with the column of the first byte at which no text that they read goes on.
#[derive(Drop)]
pub(crate) struct Tail<'a> {
    bytes: &'a [u8],
    column: usize,
    /// Each byte that is left, and the end behind them, has a column, with one to spare.
    ghost within: { column + length bytes.now + 1 < 2 ^ 64 },
}

impl<'a> Tail<'a> {
    /// What stands behind the letter, which is column 1.
    pub(crate) fn after_letter(bytes: &'a [u8]) -> Tail<'a>
        ensures bytes { result.bytes.now ≡ bytes.now }
        ensures column { result.column ≡ 2 }
    {
        Tail { bytes, column: 2 }
    }

    /// What is left behind the first bytes.
    fn past(&self, count: usize) -> Tail<'a>
        requires { count ≤ length self.now.bytes.now }
        ensures bytes { result.bytes.now ≡ drop count self.now.bytes.now }
        ensures column { result.column ≡ self.now.column + count }
    {
        Tail {
            bytes: &self.bytes[count..],
            column: self.column + count,
        }
    }

    /// Takes one space and a number of at most `most` from the front.
    pub(crate) fn spaced_number(&mut self, most: u32) -> Result<u32, Refusal>
        ensures { MatchResult result (λ value. Passes most self.old.bytes.now self.old.column value self.new.bytes.now self.new.column) (Breaks (Spaced most Bare) self.old.bytes.now self.old.column) }
    {
        let [b' ', digits @ ..] = self.bytes else {
            return Err(Refusal::Unreadable(self.column));
        };
        match number(digits, most) {
            Ok(numeral) => {
                *self = self.past(numeral.end + 1);
                Ok(numeral.value)
            }
            Err(place) => Err(Refusal::Unreadable(self.column + place + 1)),
        }
    }

    /// One space, a number and the end of the line: the number.
    pub(crate) fn last_number(&mut self) -> Result<u32, Refusal>
        ensures { MatchResult result (LastNumber 4294967295 self.old.bytes.now) (Breaks (Spaced 4294967295 End) self.old.bytes.now self.old.column) }
    {
        let value = self.spaced_number(u32::MAX)?;
        self.end()?;
        Ok(value)
    }

    /// The end of the line: byte 10, and nothing more.
    pub(crate) fn end(&self) -> Result<(), Refusal>
        ensures { MatchResult result (λ _. End self.now.bytes.now) (Breaks End self.now.bytes.now self.now.column) }
    {
        match self.bytes {
            [b'\n'] => Ok(()),
            [b'\n', ..] => Err(Refusal::Unreadable(self.column + 1)),
            _ => Err(Refusal::Unreadable(self.column)),
        }
    }
}
