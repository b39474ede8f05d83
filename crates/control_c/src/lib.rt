//! The static library for a control program in C: it exports the calls of `control`, each under the same promise.
#![tactic(auto)]

ghost use Rattle.control.specs.Calls.{JudgesBytes, MakesBytes};

// Only a static library exports to C, and no crate can stand on one: so `control` has the bodies, and each call here passes on.

/// Judges the bytes of a file: 0, or the packed refusal.
#[unsafe(no_mangle)]
pub extern "C" fn tovleng_judge(file: &[u8]) -> u64
    ensures { JudgesBytes file.now result }
{
    control::tovleng_judge(file)
}

/// Makes a load from the units of a file and writes how many of each: 0, or the packed refusal.
/// Where the call is refused the output stays as it is.
#[unsafe(no_mangle)]
pub extern "C" fn tovleng_make(file: &[u8], load: u64, out: &mut [u8]) -> u64
    ensures { MakesBytes file.now load out.old result out.new }
{
    control::tovleng_make(file, load, out)
}
