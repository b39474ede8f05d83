//! Whether the entries of a file keep the four rules of a true table, each at one remainder.

ghost use Rattle.std.specs.Prelude.{◌<◌, Decides, MatchResult};
ghost use Rattle.files.specs.Checks.{FirstFalse};
ghost use Rattle.files.specs.Layout.{file_base, file_entry, file_others};
ghost use Rattle.tables.specs.Rules.{Closed, Rule, Rules};
ghost use Rattle.tables.specs.Tables.{Within};

use crate::reading::{base, entry, other, others};
use crate::stepping::step;

/// Whether the entry at a remainder is present and at most a load.
fn within(file: &[u8], remainder: u32, load: u64) -> bool
    ensures { Decides result (Within (file_entry file.now) remainder load) }
{
    entry(file, remainder).is_some_and(|least| u64::from(least) <= load)
}

/// Whether each other unit leads from the entry `load` at a remainder to an entry that is present and at most the sum.
fn closed(file: &[u8], remainder: u32, load: u32) -> bool
    requires { remainder < file_base file.now }
    ensures { Decides result (Closed (file_base file.now) (file_others file.now) (file_entry file.now) remainder load) }
{
    let base = base(file);
    (0..others(file)).all(|place| {
        let size = other(file, place);
        let above = (remainder + u32::from(size)) % base;
        within(file, above, u64::from(load) + u64::from(size))
    })
}

/// Whether the four rules hold at a remainder.
fn holds(file: &[u8], remainder: u32) -> bool
    requires { remainder < file_base file.now }
    ensures { Decides result (Rule (file_base file.now) (file_others file.now) (file_entry file.now) remainder) }
{
    let Some(load) = entry(file, remainder) else {
        return remainder != 0;
    };
    if load % base(file) != remainder || !closed(file, remainder, load) {
        return false;
    }
    if remainder == 0 {
        load == 0
    } else {
        step(file, remainder).is_some()
    }
}

/// Refuses a file in which some rule fails, with the lowest remainder at which one does.
pub(crate) fn check_entries(file: &[u8]) -> Result<(), u32>
    ensures { MatchResult result
        (λ _. Rules (file_base file.now) (file_others file.now) (file_entry file.now))
        (FirstFalse (file_base file.now) (file_others file.now) (file_entry file.now)) }
{
    (0..base(file))
        .find(|&remainder| !holds(file, remainder))
        .map_or(Ok(()), Err)
}
