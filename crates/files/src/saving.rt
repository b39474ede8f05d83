//! Saving the row and the table of a showing source as a file.

ghost use Rattle.std.specs.Prelude.{◌≡◌, ◌+◌, ◌*◌, ◌≤◌, ◌∷◌, ◌++◌, length, take, drop, IfOk};
ghost use Rattle.files.specs.Fields.{be16};
ghost use Rattle.files.specs.Layout.{letters};
ghost use Rattle.files.specs.Rounds.{ReadsBack};
ghost use Rattle.files.specs.Written.{Saves, entries_from, entry_bytes};
ghost use Rattle.std.specs.List.{flat_map};

use crate::fields::write;
use crate::layout::{LETTERS, VERSION};
use crate::reading::ABSENT;
use tables::{Refusal, Showing};

/// Writes the letters, the version, the number of units and the base.
fn write_head(units: u8, base: u16, out: &mut [u8])
    requires { 8 ≤ length out.old }
    ensures { out.new ≡ (letters ++ (be16 1 ++ (units ∷ be16 base))) ++ drop 8 out.old }
{
    out[0..3].copy_from_slice(LETTERS);
    write(out, 3, VERSION.to_be_bytes());
    out[5] = units;
    write(out, 6, base.to_be_bytes());
}

// The next two loops write each part at its offset: over `out.chunks_exact_mut(2)` the proof does not close, since the library does
// not say what the memory holds once its chunks are given back. As one function they would take a closure with clauses of its own,
// `|place| requires { .. } { source.size(place + 1).unwrap().to_be_bytes() }`, which is no plainer.

/// Writes the sizes of the units other than the base.
fn write_sizes<S: Showing>(source: &S, others: usize, out: &mut [u8])
    requires all { length (S.Showing.row source.now) ≡ others + 1 }
    requires room { 8 + 2 * others ≤ length out.old }
    ensures { out.new ≡ take 8 out.old ++ flat_map be16 (drop 1 (S.Showing.row source.now)) ++ drop (8 + 2 * others) out.old }
{
    for place in 0..others {
        let size = source.size(place + 1).unwrap();
        write(out, 8 + 2 * place, size.to_be_bytes());
    }
}

/// Writes the entry at each remainder below the base, from an offset on.
fn write_entries<S: Showing>(source: &S, base: u32, at: usize, out: &mut [u8])
    requires { at + 4 * base ≤ length out.old }
    ensures { out.new ≡ take at out.old ++ flat_map entry_bytes (entries_from (S.Entries.entry source.now) 0 base) ++ drop (at + 4 * base) out.old }
{
    for remainder in 0..base {
        let number = source.least(remainder).unwrap_or(ABSENT);
        write(out, at + 4 * remainder as usize, number.to_be_bytes());
    }
}

/// Writes the file of a source's row and table at the front of the memory, and says how long it is.
/// Later bytes stay as they are, and so does every byte where the memory is too short. The file is a true one that gives back
/// the source's row and entries.
pub fn save<S: Showing>(source: &S, out: &mut [u8]) -> Result<usize, Refusal>
    ensures saves { Saves (S.Showing.row source.now) (S.Entries.entry source.now) out.old result out.new }
    ensures back { IfOk result (λ size. ReadsBack (S.Showing.row source.now) (S.Entries.entry source.now) (take size out.new)) }
{
    let units = source.units();
    let base = source.base();
    let entries = 8 + 2 * (units - 1);
    let size = entries + 4 * base as usize;
    if out.len() < size {
        return Err(Refusal::NoRoom(size));
    }
    write_head(units as u8, base as u16, out);
    write_sizes(source, units - 1, out);
    write_entries(source, base, entries, out);
    Ok(size)
}
