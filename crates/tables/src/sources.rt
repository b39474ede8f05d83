//! Table sources: a base, and for each remainder by it the least load of that remainder.

ghost use Rattle.std.specs.Prelude.{◌≡◌, ◌≤◌, ℕ, None, Option};
ghost use Rattle.tables.specs.Tables.{Lawful};

/// Entries by remainder: a base and, for each remainder by it, a load, if there is one. Of the loads nothing is promised yet,
/// but that there is none from the base on (`past`): the entries of a file that has not been judged are of this kind.
///
/// The ghost members tell what the two questions answer: `modulus` is the base, and `entry` has the entry at each remainder.
/// The questions alter nothing and are never refused, so that whatever reads entries needs only these promises.
pub trait Entries {
    ghost modulus: { Self → ℕ };

    ghost entry: { Self → ℕ → Option ℕ };

    /// The base.
    fn base(&self) -> u32
        ensures { result ≡ modulus self.now };

    /// The entry at a remainder: none where it is absent, and from the base on.
    fn least(&self, remainder: u32) -> Option<u32>
        ensures { result ≡ entry self.now remainder };

    ghost past: { (e : Self) (r : ℕ) → modulus e ≤ r → entry e r ≡ None };
}

/// A table source: entries of which each is the least load of its remainder.
///
/// The law is that every value of the type keeps the sentences of a source (see `Lawful`). Whoever adds a source gives its
/// entries, and shows it.
pub trait Source: Entries {
    ghost lawful: { (s : Self) → Lawful (Self.Entries.modulus s) (Self.Entries.entry s) };
}

/// Entries that are lent are entries.
impl<E: Entries> Entries for &E {
    ghost modulus = { λ e. E.Entries.modulus e.now };

    ghost entry = { λ e. E.Entries.entry e.now };

    ghost past = { λ e. E.Entries.past e.now };

    fn base(&self) -> u32 {
        (**self).base()
    }

    fn least(&self, remainder: u32) -> Option<u32> {
        (**self).least(remainder)
    }
}

/// A source that is lent is a source.
impl<S: Source> Source for &S {
    ghost lawful = { λ s. S.Source.lawful s.now };
}
