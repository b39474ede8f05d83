//! Steps: the unit by which the entry at a remainder is reached from another entry.

ghost use Rattle.std.specs.Prelude.{◌≡◌, ◌<◌};
ghost use Rattle.tables.specs.Steps.{back, steps};

use crate::sources::Entries;

/// The remainder from which a unit of the size leads to another.
fn remainder_before(base: u32, remainder: u32, size: u32) -> u32
    requires { remainder < base }
    ensures { result ≡ back base size remainder }
{
    let turn = size % base;
    if turn <= remainder {
        remainder - turn
    } else {
        remainder + (base - turn)
    }
}

/// Whether the entry at a remainder is another entry and a unit of the size.
pub fn steps_up<E: Entries>(entries: &E, remainder: u32, size: u16) -> bool
    ensures { result ≡ steps (E.Entries.modulus entries.now) (E.Entries.entry entries.now) remainder size }
{
    let base = entries.base();
    if remainder >= base {
        return false;
    }
    let size = u32::from(size);
    let from = remainder_before(base, remainder, size);
    match (entries.least(remainder), entries.least(from)) {
        (Some(load), Some(least)) => load >= size && load - size == least,
        _ => false,
    }
}
