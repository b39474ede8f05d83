//! Numbers in front of bytes.

ghost use Rattle.std.specs.Prelude.{◌≢◌, ◌+◌, ◌*◌, ◌≤◌, Some, unwrap_or, MatchResult};
ghost use Rattle.lines.specs.Numbers.{Numbered, Numberless};
ghost use Rattle.std.specs.Option.{SomeIff};

/// The number so far, if a digit stood before, with one more digit, where that is a number of at most `most`: 0 is not lengthened.
fn grown(value: Option<u32>, digit: u8, most: u32) -> Option<u32>
    ensures { SomeIff result ((value ≢ Some 0) × (unwrap_or value 0 * 10 + digit ≤ most)) (unwrap_or value 0 * 10 + digit) }
{
    if value == Some(0) {
        return None;
    }
    value
        .unwrap_or(0)
        .checked_mul(10)?
        .checked_add(u32::from(digit))
        .filter(|&next| next <= most)
}

/// A number in front of bytes, and the place at which it ends.
#[derive(Clone, Copy)]
pub(crate) struct Numeral {
    pub(crate) value: u32,
    pub(crate) end: usize,
}

/// The number of at most `most` in front of the bytes, which ends at a byte that is no digit.
/// Refused with the first place at which no such number goes on: one past the last byte where the bytes end too early.
pub(crate) fn number(bytes: &[u8], most: u32) -> Result<Numeral, usize>
    ensures { MatchResult result (λ x. Numbered most bytes.now x.value x.end) (Numberless most bytes.now) }
{
    let mut value = None;
    for (i, &b) in bytes.iter().enumerate() {
        if !b.is_ascii_digit() {
            return Ok(Numeral {
                value: value.ok_or(i)?,
                end: i,
            });
        }
        value = Some(grown(value, b - b'0', most).ok_or(i)?);
    }
    Err(bytes.len())
}
