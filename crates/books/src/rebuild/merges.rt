//! The merge: the least load of each remainder that a row reaches, in ascending order.

ghost use Rattle.std.specs.Prelude.{◌≡◌, ℕ, ◌+◌, ◌-◌, ◌*◌, ◌<◌, ◌≤◌, [], length, sum, slice_index};
ghost use Rattle.waiting.specs.Lists.{room, waits};
ghost use Rattle.books.specs.Leasts.{Leasts};
ghost use Rattle.books.specs.Merges.{Under, Waits};
ghost use Rattle.books.specs.Pointers.{places_of, sizes_of};
ghost use Rattle.books.specs.Units.{Small};

use super::candidates::Candidate;
use super::loads::Loads;
use super::pointers::Pointer;
use waiting::Waiting;

/// Each unit whose pointer stands at the newest load gets a candidate.
fn refill(pointers: &[Pointer], loads: &[u32], waiting: &mut Waiting<Candidate>)
    requires some { 0 < length loads.now }
    requires low { slice_index loads.now (length loads.now - 1) ≤ 65535 * 4096 }
    requires places { length pointers.now ≤ room waiting.old }
    requires waits { Waits loads.now (places_of pointers.now) (sizes_of pointers.now) (Under (places_of pointers.now) (length loads.now - 1)) (waits waiting.old) }
    ensures waits { Waits loads.now (places_of pointers.now) (sizes_of pointers.now) (Under (places_of pointers.now) (length loads.now)) (waits waiting.new) }
    ensures size { room waiting.new ≡ room waiting.old }
{
    let newest = loads.len() - 1;
    for (position, pointer) in pointers.iter().enumerate() {
        if pointer.at == newest {
            let load = loads[newest] + u32::from(pointer.size);
            waiting.put(Candidate { load, position }).unwrap();
        }
    }
}

/// A merge: the base and the pointers of a row, the strip and the list that are lent for its marks and loads, and what waits.
#[derive(Drop)]
pub(crate) struct Merge<'a> {
    pub(crate) base: u32,
    pub(crate) strip: &'a mut [u8],
    pub(crate) loads: &'a mut Loads,
    pub(crate) pointers: &'a mut [Pointer],
    pub(crate) waiting: Waiting<'a, Candidate>,
    ghost some: { 0 < base },
    ghost few: { base ≤ 4096 },
    ghost marks: { base ≡ length strip.now },
    ghost places: { length pointers.now ≤ room waiting },
    ghost small: { Small (sizes_of pointers.now) },
}

impl Merge<'_> {
    ghost use Rattle.books.specs.Merging.{IsBetween, IsTurning, Keeps};

    /// One turn: the pointer of the candidate's unit moves on, and the load is appended where its remainder is new.
    fn turn(&mut self, x: Candidate)
        requires { IsTurning self.old x }
        ensures state { IsBetween self.new }
        ensures keeps { Keeps self.old self.new }
        ensures steps { sum (places_of self.new.pointers.now) ≡ sum (places_of self.old.pointers.now) + 1 }
    {
        // Each part is lent on its own, since the prover loses what is written through two references at once.
        let base = self.base;
        let strip = &mut *self.strip;
        let loads = &mut *self.loads;
        let pointers = &mut *self.pointers;
        let waiting = &mut self.waiting;
        let Candidate { load, position } = x;
        let pointer = &mut pointers[position];
        pointer.at += 1;
        if let Some(&from) = loads.as_slice().get(pointer.at) {
            let load = from + u32::from(pointer.size);
            waiting.put(Candidate { load, position }).unwrap();
        }
        // A mark is a byte and no `bool`, since the strip is bytes that the caller lends.
        let mark = &mut strip[(load % base) as usize];
        if *mark == 1 {
            return;
        }
        *mark = 1;
        loads.push(load);
        refill(pointers, loads.as_slice(), waiting);
    }

    /// Writes the least loads in ascending order, one for each remainder that the base and the units reach.
    ///
    /// There is always room: no unit has two candidates, so that no more wait than there are units, and no remainder is
    /// marked twice, so that there are no more loads than remainders.
    pub(crate) fn run(&mut self)
        requires empty { waits self.old.waiting ≡ [] }
        requires unmarked { (r : ℕ) → slice_index self.old.strip.now r ≡ 0 }
        requires fresh { (u : ℕ) → slice_index (places_of self.old.pointers.now) u ≡ 0 }
        ensures { Leasts self.old.base (sizes_of self.old.pointers.now) self.new.loads.now.list.items (length self.new.loads.now.list.items) }
    {
        let strip = &mut *self.strip;
        let loads = &mut *self.loads;
        let pointers = &mut *self.pointers;
        strip[0] = 1;
        loads.clear();
        loads.push(0);
        refill(pointers, loads.as_slice(), &mut self.waiting);
        while let Some(x) = self.waiting.take() {
            self.turn(x);
        }
    }
}
