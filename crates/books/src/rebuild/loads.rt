//! The loads that a merge finds, in a list that has room for one of each remainder.

ghost use Rattle.std.specs.Prelude.{◌≡◌, ◌<◌, ◌≤◌, [], ◌∷◌, ◌++◌, length, IfOk, vec_capacity};

use std::alloc::{AllocError, Global};
use tables::LARGEST_BASE;

/// Loads in the order in which they are found. All memory is set aside when the list is made, and stays.
#[derive(Drop)]
pub(crate) struct Loads {
    list: Vec<u32>,
    ghost space: { 4096 ≤ vec_capacity list },
}

impl Loads {
    /// A list of no loads.
    pub(crate) fn new(heap: Global) -> Result<Loads, AllocError>
        ensures { IfOk result (λ loads. loads.list.items ≡ []) }
    {
        let list = Vec::with_capacity(heap, LARGEST_BASE as usize)?;
        Ok(Loads { list })
    }

    /// The loads, the first found first.
    pub(crate) fn as_slice(&self) -> &[u32]
        ensures { result.now ≡ self.now.list.items }
    {
        self.list.as_slice()
    }

    /// Empties the list.
    pub(crate) fn clear(&mut self)
        ensures { self.new.list.items ≡ [] }
    {
        self.list.clear();
    }

    /// Appends a load.
    pub(crate) fn push(&mut self, load: u32)
        requires { length self.old.list.items < 4096 }
        ensures { self.new.list.items ≡ self.old.list.items ++ load ∷ [] }
    {
        self.list.push_reserved(load);
    }
}
