//! The pointers of a merge: one for each unit, which goes over the loads that are found.

ghost use Rattle.std.specs.Prelude.{◌≡◌, ℕ, length, slice_index};
ghost use Rattle.books.specs.Pointers.{places_of, sizes_of};

/// The pointer of a unit: the unit's size, and the place of the load that it leads from next.
#[derive(Clone, Copy)]
pub(crate) struct Pointer {
    pub(crate) size: u16,
    pub(crate) at: usize,
}

/// Points each unit at the first load.
pub(crate) fn start(pointers: &mut [Pointer], sizes: &[u16])
    requires { length pointers.old ≡ length sizes.now }
    ensures sizes { sizes_of pointers.new ≡ sizes.now }
    ensures first { (u : ℕ) → slice_index (places_of pointers.new) u ≡ 0 }
{
    // A zip with the sizes would hide from the prover what is written through it.
    for (i, pointer) in pointers.iter_mut().enumerate() {
        *pointer = Pointer {
            size: sizes[i],
            at: 0,
        };
    }
}
