//! What any bytes say as a table file: the number of units, the sizes and the entries, whether or not the file is well-formed.

ghost use Rattle.std.specs.Prelude.{◌≡◌, ◌-◌, ◌^◌, ◌<◌, ◌≤◌, length};
ghost use Rattle.files.specs.Layout.{file_base, file_entry, file_row, file_size, file_units, file_version};
ghost use Rattle.std.specs.List.{slice_get};

use crate::fields::read;

// The bytes are passed as they are, since the public calls take bytes; the structs round them are for what reads entries.

/// The number that stands for an absent entry.
// The file's format has four bytes for an entry and no other way to leave it out.
pub(crate) const ABSENT: u32 = 4_294_967_295;

/// The version that a file names.
pub(crate) fn version(file: &[u8]) -> u16
    ensures { result ≡ file_version file.now }
{
    u16::from_be_bytes(read(file, 3))
}

/// The number of units that a file names, the base included.
#[tactic(auto, using(crate::proofs::Places::row_length))]
pub fn units(file: &[u8]) -> usize
    ensures value { result ≡ file_units file.now }
    ensures listed { 1 ≤ file_units file.now → result ≡ length (file_row file.now) }
{
    usize::from(file.get(5).copied().unwrap_or(0))
}

/// The base that a file names.
pub fn base(file: &[u8]) -> u32
    ensures { result ≡ file_base file.now }
{
    u32::from(u16::from_be_bytes(read(file, 6)))
}

/// The number of units other than the base.
pub(crate) fn others(file: &[u8]) -> usize
    ensures { result ≡ file_units file.now - 1 }
{
    units(file).saturating_sub(1)
}

/// The size of the other unit at a place, from 0 up.
pub(crate) fn other(file: &[u8], place: usize) -> u16
    requires { place < 2 ^ 16 }
    ensures { result ≡ file_size file.now place }
{
    u16::from_be_bytes(read(file, 8 + 2 * place))
}

/// The size of the unit at a position, the base at 0; none past the last.
#[tactic(auto, using(crate::proofs::Places::row_at, crate::proofs::Places::row_past))]
pub fn size(file: &[u8], position: usize) -> Option<u16>
    ensures { result ≡ slice_get (file_row file.now) position }
{
    let Some(place) = position.checked_sub(1) else {
        return Some(u16::from_be_bytes(read(file, 6)));
    };
    (place < others(file)).then(|| other(file, place))
}

/// The entry at a remainder: none where it is absent, and from the base on.
pub fn entry(file: &[u8], remainder: u32) -> Option<u32>
    ensures { result ≡ file_entry file.now remainder }
{
    if remainder >= base(file) {
        return None;
    }
    let at = 8 + 2 * others(file) + 4 * remainder as usize;
    let load = u32::from_be_bytes(read(file, at));
    (load < ABSENT).then_some(load)
}
