//! One more unit in a table of least loads, in place: O(base) steps in all, and no memory of its own.
//!
//! The ring of a remainder r, for a unit of size g, is the remainders r, r + g, r + 2g, .. by the base: where g leads, again
//! and again, until it is back at r. Two remainders lie in one ring where they leave the same by the stride, which is the
//! greatest common divisor of the base and g; so there are as many rings as the stride says, and one of them has the
//! remainders start, start + stride, start + 2 stride, .. below the base, for each start below the stride.
//!
//! With one more unit, an entry is the lowest of the sums of an entry of its ring, as it was, and the units that lead from
//! there. The lowest present entry of a ring therefore stays: whatever leads to it starts no lower. So a ring is entered
//! there and walked once round, and at each remainder the lesser of the entry and the load that comes goes on. Back at the
//! start the load that comes is no less than the entry, and a second round would alter nothing. Entered anywhere else, the
//! walk could pass remainders before it has met the entry from which they are reached.
//!
//! A ring without a present entry stays absent: the unit leads from a remainder to one of the same ring only, so there is
//! no load that it could be added to.

ghost use Rattle.std.specs.Prelude.{◌≡◌, ◌%◌, ◌<◌, ◌≤◌, Some, vec_len};
ghost use Rattle.books.specs.Rings.{Common, Extended, Lowest, Room, RoomFor, Round, lesser_entry, lesser_load};
ghost use Rattle.tables.specs.Tables.{entry_of};

use crate::stored::Stored;

/// The greatest common divisor of a base and a unit, by Euclid's algorithm.
// A pair needs an inverse beside it, and the function that finds both asks for ranges, which no public call may.
fn common_divisor(base: u32, unit: u32) -> u32
    requires { 1 ≤ base }
    ensures { Common base unit result }
{
    let (mut a, mut b) = (base, unit);
    while b != 0 {
        (a, b) = (b, a % b);
    }
    a
}

/// The lesser of a load and an entry: the load where the entry is absent.
fn lower_load(load: u32, least: Option<u32>) -> u32
    ensures { result ≡ lesser_load load least }
{
    least.map_or(load, |entry| load.min(entry))
}

/// The lesser of two entries, of which an absent one is the greater.
fn lower_entry(low: Option<u32>, least: Option<u32>) -> Option<u32>
    ensures { result ≡ lesser_entry low least }
{
    low.map_or(least, |load| Some(lower_load(load, least)))
}

impl Stored {
    /// The lowest present entry of a ring, of the remainders start, start + stride, ..; none where all are absent.
    fn lowest(&self, start: u32, stride: u32) -> Option<u32>
        requires some { start < stride }
        requires whole { vec_len self.now.entries % stride ≡ 0 }
        ensures { Lowest (vec_len self.now.entries) stride start (entry_of self.now.entries.items) result }
    {
        // With `filter_map(..).min()` over the turns the proof did not close: it loses which entries there were.
        let mut low = None;
        for turn in self.entries.chunks_exact(stride as usize) {
            low = lower_entry(low, turn[start as usize]);
        }
        low
    }

    /// Walks a ring once round from its lowest present entry.
    ///
    /// The walk has as many steps as the ring has remainders, less one: the last would lead back to the lowest entry.
    fn walk(&mut self, unit: u32, low: u32, stride: u32)
        requires common { Common (vec_len self.old.entries) unit stride }
        requires lowest { Lowest (vec_len self.old.entries) stride (low % stride) (entry_of self.old.entries.items) (Some low) }
        requires room { RoomFor (vec_len self.old.entries) unit low }
        ensures round { Round (vec_len self.old.entries) unit stride (low % stride)
            (entry_of self.old.entries.items) (entry_of self.new.entries.items) }
        ensures len { vec_len self.new.entries ≡ vec_len self.old.entries }
    {
        let base = self.base();
        let further = base / stride - 1;
        let mut load = low;
        for _step in 0..further {
            load += unit;
            let remainder = load % base;
            load = lower_load(load, self.least(remainder));
            self.entries[remainder as usize] = Some(load);
        }
    }

    /// One more unit, in one ring after another. Nothing is done where a ring has no present entry.
    pub(crate) fn extend(&mut self, unit: u32)
        requires { Room (vec_len self.old.entries) unit (entry_of self.old.entries.items) }
        ensures extended { Extended (vec_len self.old.entries) unit
            (entry_of self.old.entries.items) (entry_of self.new.entries.items) }
        ensures len { vec_len self.new.entries ≡ vec_len self.old.entries }
    {
        let stride = common_divisor(self.base(), unit);
        for start in 0..stride {
            if let Some(low) = self.lowest(start, stride) {
                self.walk(unit, low, stride);
            }
        }
    }
}
