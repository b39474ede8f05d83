//! The two calls that are exported to C by `control_c`. Neither takes memory or keeps anything from one call to the next.

ghost use Rattle.std.specs.Prelude.{◌≡◌, ◌*◌, ◌≤◌, ◌++◌, length, drop};
ghost use Rattle.control.specs.Calls.{JudgesBytes, MakesBytes};
ghost use Rattle.files.specs.Fields.{be32};
ghost use Rattle.std.specs.List.{flat_map};

use crate::packing::{in_bytes, pack};
use files::{judge, make_from};
use tables::MOST_UNITS;

/// Judges the bytes of a file: 0, or the packed refusal.
pub fn tovleng_judge(file: &[u8]) -> u64
    ensures { JudgesBytes file.now result }
{
    match judge(file) {
        Ok(()) => 0,
        Err(reason) => pack(reason),
    }
}

/// Writes numbers at the front of the output, four bytes each, the high byte first.
fn write_numbers(numbers: &[u32], out: &mut [u8])
    requires { 4 * length numbers.now ≤ length out.old }
    ensures { out.new ≡ flat_map be32 numbers.now ++ drop (4 * length numbers.now) out.old }
{
    // The writes of a file do the same, but are no public call, as they ask for room.
    // Over `out.chunks_exact_mut(4).zip(numbers)` the proof does not close: the library does not say what the bytes are once lent chunks end.
    for (at, number) in numbers.iter().enumerate() {
        out[4 * at..4 * at + 4].copy_from_slice(&number.to_be_bytes());
    }
}

/// Makes a load with places for the numbers of sixteen units, which the caller lends.
fn make_through(file: &[u8], load: u64, numbers: &mut [u32], out: &mut [u8]) -> u64
    requires { 16 ≤ length numbers.old }
    ensures { MakesBytes file.now load out.old result out.new }
{
    let room = (out.len() / 4).min(MOST_UNITS);
    match make_from(file, load, &mut numbers[..room]) {
        Ok(units) => {
            write_numbers(&numbers[..units], out);
            0
        }
        Err(reason) => pack(in_bytes(reason)),
    }
}

/// Makes a load from the units of a file and writes how many of each: 0, or the packed refusal.
/// Where the call is refused the output stays as it is.
pub fn tovleng_make(file: &[u8], load: u64, out: &mut [u8]) -> u64
    ensures { MakesBytes file.now load out.old result out.new }
{
    // An array and no `Vec`: the calls for C take no memory.
    make_through(file, load, &mut [0; MOST_UNITS], out)
}
