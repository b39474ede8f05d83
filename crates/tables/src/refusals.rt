//! Why a call is refused: one case for each reason, with the value that its place is made of.

ghost use Rattle.std.specs.Prelude.{◌≡◌, Some};
ghost use Rattle.tables.specs.Refusals.{number_of, place_of, sentence_of};
ghost use Rattle.tables.specs.declared.refusals.Refusal.TheVariants.{NoMemory};

use std::alloc::AllocError;
use std::error::Error;
use std::fmt;

/// Why a call is refused. Each reason but the last has a number and a place.
#[derive(Clone, Copy, PartialEq, Eq, Debug)]
pub enum Refusal {
    /// A base or a size is out of its range: this is the value.
    OutOfRange(u32),
    /// The size is already in the row, or a pair's other unit is its base.
    AlreadyAdmitted(u32),
    /// Sixteen units stand in the row.
    RowFull,
    /// The size is not in the row.
    NotAdmitted(u32),
    /// The size is the base, which cannot be withdrawn.
    IsBase(u32),
    /// The row does not make the load, which leaves this remainder.
    Unmakeable(u32),
    /// The missing loads never end: this is the lowest remainder whose entry is absent.
    Endless(u32),
    /// Memory is too short, or a sheet too long: this many places are needed, or allowed.
    NoRoom(usize),
    /// The load is above 1,000,000,000.
    LoadTooLarge,
    /// The file is not well-formed: this is where it breaks.
    Malformed(usize),
    /// The file's table is not the true one of its row: this is the lowest remainder at which a rule fails.
    Untrue(u32),
    /// Two sizes have a common divisor above 1: this is the greatest.
    CommonDivisor(u32),
    /// The bases of two sources differ: this is the second.
    BasesDiffer(u32),
    /// The waiting list is full: this is its capacity.
    ListFull(usize),
    /// No readable line goes on at this column, counted from 1.
    Unreadable(usize),
    /// A line needs a book, and none has been opened.
    NoBook,
    /// The machine has no memory left.
    NoMemory,
}

impl Refusal {
    /// The number of the refusal; want of memory has none.
    pub fn number(self) -> Option<u32>
        ensures { result ≡ number_of self }
    {
        match self {
            Refusal::OutOfRange(_) => Some(1),
            Refusal::AlreadyAdmitted(_) => Some(2),
            Refusal::RowFull => Some(3),
            Refusal::NotAdmitted(_) => Some(4),
            Refusal::IsBase(_) => Some(5),
            Refusal::Unmakeable(_) => Some(6),
            Refusal::Endless(_) => Some(7),
            Refusal::NoRoom(_) => Some(8),
            Refusal::LoadTooLarge => Some(10),
            Refusal::Malformed(_) => Some(11),
            Refusal::Untrue(_) => Some(12),
            Refusal::CommonDivisor(_) => Some(13),
            Refusal::BasesDiffer(_) => Some(14),
            Refusal::ListFull(_) => Some(15),
            Refusal::Unreadable(_) => Some(16),
            Refusal::NoBook => Some(17),
            Refusal::NoMemory => None,
        }
    }

    /// The place of the refusal; want of memory has none.
    pub fn place(self) -> Option<u64>
        ensures { result ≡ place_of self }
    {
        match self {
            Refusal::OutOfRange(number)
            | Refusal::AlreadyAdmitted(number)
            | Refusal::NotAdmitted(number)
            | Refusal::IsBase(number)
            | Refusal::Unmakeable(number)
            | Refusal::Endless(number)
            | Refusal::Untrue(number)
            | Refusal::CommonDivisor(number)
            | Refusal::BasesDiffer(number) => Some(u64::from(number)),
            Refusal::NoRoom(places) | Refusal::ListFull(places) => Some(places as u64),
            Refusal::Malformed(place) => Some(place as u64),
            Refusal::Unreadable(column) => Some(column as u64),
            Refusal::RowFull => Some(16),
            Refusal::LoadTooLarge => Some(1_000_000_000),
            Refusal::NoBook => Some(0),
            Refusal::NoMemory => None,
        }
    }
}

/// A sentence for a person; a day sheet prints the number and the place in its stead.
impl fmt::Display for Refusal {
    ghost output = { λ reason. Some (sentence_of reason) };

    fn fmt<W: fmt::Write>(&self, f: &mut fmt::Formatter<W>) -> fmt::Result {
        match *self {
            Refusal::OutOfRange(value) => write!(f, "{value} is out of range"),
            Refusal::AlreadyAdmitted(size) => write!(f, "{size} is in the row already"),
            Refusal::RowFull => write!(f, "sixteen units are in the row"),
            Refusal::NotAdmitted(size) => write!(f, "{size} is not in the row"),
            Refusal::IsBase(size) => write!(f, "{size} is the base"),
            Refusal::Unmakeable(remainder) => write!(
                f,
                "the row does not make the load, which leaves {remainder}"
            ),
            Refusal::Endless(remainder) => write!(f, "no load that leaves {remainder} is made"),
            Refusal::NoRoom(places) => write!(f, "{places} places are needed or allowed"),
            Refusal::LoadTooLarge => write!(f, "the load is above 1000000000"),
            Refusal::Malformed(offset) => write!(f, "the file breaks at offset {offset}"),
            Refusal::Untrue(remainder) => write!(
                f,
                "the table is not the true one at remainder {remainder}"
            ),
            Refusal::CommonDivisor(divisor) => write!(f, "{divisor} divides both sizes"),
            Refusal::BasesDiffer(base) => write!(f, "the second base is another, {base}"),
            Refusal::ListFull(capacity) => write!(
                f,
                "all {capacity} places of the waiting list are in use"
            ),
            Refusal::Unreadable(column) => write!(f, "no readable line goes on at column {column}"),
            Refusal::NoBook => write!(f, "no book has been opened"),
            Refusal::NoMemory => write!(f, "out of memory"),
        }
    }
}

impl Error for Refusal {}

// The next two are written out, since contracts say which refusal a `?` makes, and a derived conversion says nothing of it.

impl From<AllocError> for Refusal {
    ghost from_gives = { λ _ r. r ≡ NoMemory };

    fn from(_e: AllocError) -> Refusal {
        Refusal::NoMemory
    }
}

/// Text that is written into memory fails only for want of it.
impl From<fmt::Error> for Refusal {
    ghost from_gives = { λ _ r. r ≡ NoMemory };

    fn from(_e: fmt::Error) -> Refusal {
        Refusal::NoMemory
    }
}
