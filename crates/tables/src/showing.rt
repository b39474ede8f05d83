//! Showing sources: those that also show the row of units that their table belongs to, and how each entry is reached.

ghost use Rattle.std.specs.Prelude.{◌≡◌, ℕ, List, length};
ghost use Rattle.std.specs.List.{slice_get};
ghost use Rattle.tables.specs.Rows.{Row, Table, base_of};
ghost use Rattle.tables.specs.Steps.{step_at};

use crate::sources::Source;

/// A source whose entries are the least loads that a row of units makes.
///
/// `row` is its row: the base first, then at most fifteen other units in ascending order, none twice. The promises of the
/// questions tie the entries to it: each entry is the least load of its remainder that the row makes, absent where it makes
/// none. Whoever adds a showing source gives the row and shows these promises. The questions alter nothing and are never
/// refused.
pub trait Showing: Source {
    ghost row: { Self → List ℕ };

    /// The number of units, the base among them.
    fn units(&self) -> usize
        ensures value { result ≡ length (row self.now) }
        ensures ordered { Row (row self.now) }
        ensures based { base_of (row self.now) ≡ Self.Entries.modulus self.now }
        ensures table { Table (row self.now) (Self.Entries.entry self.now) };

    /// The size of the unit at a position, the base at 0; none past the last.
    fn size(&self, position: usize) -> Option<u16>
        ensures { result ≡ slice_get (row self.now) position };

    /// The step at a remainder: the position of the smallest unit other than the base by which its entry is reached from another.
    /// None at 0 and where the entry is absent.
    fn step(&self, remainder: u32) -> Option<usize>
        ensures { result ≡ step_at (row self.now) (Self.Entries.entry self.now) remainder };
}

/// A showing source that is lent is a showing source.
impl<S: Showing> Showing for &S {
    ghost row = { λ s. S.Showing.row s.now };

    fn units(&self) -> usize {
        (**self).units()
    }

    fn size(&self, position: usize) -> Option<u16> {
        (**self).size(position)
    }

    fn step(&self, remainder: u32) -> Option<usize> {
        (**self).step(remainder)
    }
}
