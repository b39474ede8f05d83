//! The entries that a book stores, and the memory that stays set aside for them.

ghost use Rattle.std.specs.Prelude.{◌≡◌, ◌-◌, ◌≤◌, ◌∷◌, replicate, IfOk, Some, None, vec_len, vec_capacity};
ghost use Rattle.tables.specs.Tables.{entry_of};
ghost use Rattle.tables.specs.Tests.{Leaves};

use std::alloc::{AllocError, Global};
use tables::LARGEST_BASE;

/// An entry for each remainder by a base, absent or of that remainder. The memory is enough for the largest base.
#[derive(Drop)]
pub(crate) struct Stored {
    pub(crate) entries: Vec<Option<u32>>,
    ghost some: { 1 ≤ vec_len entries },
    ghost few: { vec_len entries ≤ 4096 },
    ghost space: { 4096 ≤ vec_capacity entries },
    ghost leaves: { Leaves (vec_len entries) (entry_of entries.items) },
}

impl Stored {
    /// The entries of a base alone: 0 at 0, and no other. This fails only for want of memory.
    pub(crate) fn alone(heap: Global, base: u16) -> Result<Stored, AllocError>
        requires some { 1 ≤ base }
        requires few { base ≤ 4096 }
        ensures { IfOk result (λ stored. stored.entries.items ≡ Some 0 ∷ replicate (base - 1) None) }
    {
        let mut entries = Vec::with_capacity(heap, LARGEST_BASE as usize)?;
        entries.push_reserved(Some(0));
        entries.resize(usize::from(base), None)?;
        Ok(Stored { entries })
    }

    /// The base: there are as many entries.
    pub(crate) fn base(&self) -> u32
        ensures { result ≡ vec_len self.now.entries }
    {
        self.entries.len() as u32
    }

    /// The entry at a remainder: none past the last.
    pub(crate) fn least(&self, remainder: u32) -> Option<u32>
        ensures { result ≡ entry_of self.now.entries.items remainder }
    {
        self.entries.get(remainder as usize).copied().flatten()
    }
}
