//! How large the units of a row may be, and how many.

ghost use Rattle.std.specs.Prelude.{◌≡◌, MatchResult};
ghost use Rattle.tables.specs.Ranges.{InRange};
ghost use Rattle.tables.specs.declared.refusals.Refusal.TheVariants.{OutOfRange};

use crate::refusals::Refusal;

/// The largest size that a base may have.
pub const LARGEST_BASE: u32 = 4_096;

/// The largest size that any other unit may have.
pub const LARGEST_SIZE: u32 = 65_535;

/// How many units a row may have, the base among them.
pub const MOST_UNITS: usize = 16;

/// Refuses a size that is not 1 up to a limit.
pub fn check_range(size: u32, limit: u32) -> Result<(), Refusal>
    ensures { MatchResult result
        (λ _. InRange limit size)
        (λ reason. (reason ≡ OutOfRange size) × (InRange limit size → ⊥)) }
{
    if !(1..=limit).contains(&size) {
        return Err(Refusal::OutOfRange(size));
    }
    Ok(())
}
