//! The table of a row, built afresh from the units alone: what the old table held plays no part in it.
//!
//! The least loads are found in ascending order. Each is 0, or an earlier one and a unit; so it is enough that the next
//! candidate of each unit waits, which is the load that the unit's pointer stands at and the unit. The least candidate is
//! taken. Where its remainder is finished already, a load as low stands for it, and only the unit's pointer moves on; else
//! it is the least load of its remainder, and the remainder is marked in the strip.

ghost use Rattle.std.specs.Prelude.{◌≡◌, ◌≤◌, ◌∷◌, length, vec_len, vec_capacity};
ghost use Rattle.tables.specs.Rows.{Table};
ghost use Rattle.tables.specs.Tables.{entry_of};

mod candidates;
mod entries;
mod loads;
mod marks;
mod merges;
mod pointers;

use crate::book::MOST_OTHERS;
use crate::stored::Stored;
use candidates::Candidate;
pub(crate) use loads::Loads;
pub(crate) use marks::Marks;
use merges::Merge;
use pointers::{Pointer, start};
use waiting::Waiting;

/// Writes the true table of a row, by way of a strip of a byte for each remainder, whatever it holds, and of a list with
/// places for the loads.
pub(crate) fn tabulate(others: &[u16], stored: &mut Stored, strip: &mut [u8], loads: &mut Loads)
    requires few { length others.now ≤ 15 }
    requires strip { length strip.old ≡ vec_len stored.old.entries }
    ensures table { Table (vec_len stored.old.entries ∷ others.now) (entry_of stored.new.entries.items) }
    ensures len { vec_len stored.new.entries ≡ vec_len stored.old.entries }
{
    let base = stored.base();
    // Arrays and no `Vec`s: a rebuild takes no memory.
    let mut pointers = [Pointer { size: 0, at: 0 }; MOST_OTHERS];
    let pointers = &mut pointers[..others.len()];
    start(pointers, others);
    let mut slots = [Candidate {
        load: 0,
        position: 0,
    }; MOST_OTHERS];
    strip.fill(0);
    let waiting = Waiting::over(&mut slots);
    let mut merge = Merge {
        base,
        strip,
        loads,
        pointers,
        waiting,
    };
    merge.run();
    stored.enter(merge.loads.as_slice());
}
