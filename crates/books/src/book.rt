//! A book: a base, the other units of its row, and the least load of each remainder that the row makes.

ghost use Rattle.std.specs.Prelude.{◌≡◌, ◌≤◌, Some, vec_len, vec_capacity};
ghost use Rattle.tables.specs.Tables.{entry_of};
ghost use Rattle.tables.specs.Tests.{AllClosed, AllStepped};
ghost use Rattle.books.specs.Units.{Apart, Rising, Sized, Small};

mod answers;
mod calls;
mod filing;
mod showing;
mod source;

use crate::rebuild::Loads;
use crate::stored::Stored;

/// How many units may stand beside the base.
pub(crate) const MOST_OTHERS: usize = 15;

/// A book of unit sizes.
///
/// The ghost fields hold of every book, whatever calls came before: the other units ascend, are in range and are not the
/// base; there are at most fifteen of them, and the memory for so many is set aside; there is an entry for each remainder by
/// the base; and the entries keep the rules by which they are the true table of the row. The types of the entries and of the
/// loads that a rebuild finds keep what always holds of those alone, the memory that was set aside for them among it.
// The others are a sorted list and no set of the library's, which would take memory at each admit. That the table is true is a
// law of the type; contracts of the calls that change it would be no plainer without it, since their readers would look for it.
#[derive(Drop)]
pub struct Book {
    base: u16,
    others: Vec<u16>,
    stored: Stored,
    loads: Loads,
    ghost low: { 1 ≤ base },
    ghost high: { base ≤ 4096 },
    ghost sized: { Sized others.items },
    ghost small: { Small others.items },
    ghost rising: { Rising others.items },
    ghost apart: { Apart base others.items },
    ghost few: { vec_len others ≤ 15 },
    ghost room: { 15 ≤ vec_capacity others },
    ghost full: { vec_len stored.entries ≡ base },
    ghost start: { entry_of stored.entries.items 0 ≡ Some 0 },
    ghost closed: { AllClosed base others.items (entry_of stored.entries.items) },
    ghost stepped: { AllStepped base others.items (entry_of stored.entries.items) },
}
