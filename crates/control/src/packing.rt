//! Refusals as numbers of 64 bits.

ghost use Rattle.control.specs.Packing.{InBytes, Packed, Short};

use tables::Refusal;

/// The number that stands for a refusal: 2 to the power 32 times its number, and its place.
// The C interface answers by one number: a C caller has no enum whose variants hold values.
pub(crate) fn pack(reason: Refusal) -> u64
    requires { Short 4294967296 reason }
    ensures { Packed reason result }
{
    let number = u64::from(reason.number().unwrap());
    let place = reason.place().unwrap();
    number * 4_294_967_296 + place
}

/// The refusal with want of room told in bytes, four for each number.
// No `From`, nor for `pack`: a conversion can ask nothing, and these ask that the place is small.
pub(crate) fn in_bytes(reason: Refusal) -> Refusal
    requires { Short 1073741824 reason }
    ensures { InBytes reason result }
{
    match reason {
        Refusal::NoRoom(numbers) => Refusal::NoRoom(4 * numbers),
        other => other,
    }
}
