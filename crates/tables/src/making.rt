//! The numbers of units that make a load.

ghost use Rattle.std.specs.Prelude.{◌≡◌, ◌%◌, length, Some, slice_index};
ghost use Rattle.tables.specs.Made.{Followed, Make};
ghost use Rattle.tables.specs.Rows.{total, Row, Table, base_of};

use crate::refusals::Refusal;
use crate::showing::Showing;

/// The greatest load that is made.
const GREATEST: u64 = 1_000_000_000;

/// Counts the units by which the steps lead from an entry down to 0.
fn follow<S: Showing>(source: &S, entry: u32, counts: &mut [u32])
    requires ordered { Row (S.Showing.row source.now) }
    requires based { base_of (S.Showing.row source.now) ≡ S.Entries.modulus source.now }
    requires table { Table (S.Showing.row source.now) (S.Entries.entry source.now) }
    requires present { S.Entries.entry source.now (entry % S.Entries.modulus source.now) ≡ Some entry }
    requires places { length counts.old ≡ length (S.Showing.row source.now) }
    ensures followed { Followed (S.Showing.row source.now) (entry % S.Entries.modulus source.now) counts.new }
    ensures adds { total (S.Showing.row source.now) counts.new ≡ entry }
    ensures first { slice_index counts.new 0 ≡ 0 }
{
    counts.fill(0);
    let base = source.base();
    let mut rest = entry;
    while let Some(position) = source.step(rest % base) {
        counts[position] += 1;
        rest -= u32::from(source.size(position).unwrap());
    }
}

/// Writes the numbers of units that make a load, one for each unit in the order of the row, and says how many there are.
/// Places past them stay as they are, and so does every place where the load is refused.
pub fn make<S: Showing>(source: &S, load: u64, numbers: &mut [u32]) -> Result<usize, Refusal>
    ensures { Make (S.Showing.row source.now) load numbers.old result numbers.new }
{
    if load > GREATEST {
        return Err(Refusal::LoadTooLarge);
    }
    let units = source.units();
    if numbers.len() < units {
        return Err(Refusal::NoRoom(units));
    }
    let base = u64::from(source.base());
    let remainder = (load % base) as u32;
    let entry = match source.least(remainder) {
        Some(entry) if u64::from(entry) <= load => entry,
        _ => return Err(Refusal::Unmakeable(remainder)),
    };
    let numbers = &mut numbers[..units];
    follow(source, entry, numbers);
    numbers[0] = ((load - u64::from(entry)) / base) as u32;
    Ok(units)
}
