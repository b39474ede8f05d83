//! Sizes among others: where one stands, and whether it is a multiple of another.

ghost use Rattle.std.specs.Prelude.{◌≤◌, Decides};
ghost use Rattle.books.specs.Units.{Located, Multiple, Rising, Sized, Spare};

/// Where a size stands among ascending sizes, or else the place that it would have.
pub(crate) fn find(sizes: &[u16], size: u32) -> Result<usize, usize>
    requires { Rising sizes.now }
    ensures { Located sizes.now size result }
{
    sizes.binary_search_by_key(&size, |&unit| u32::from(unit))
}

/// Whether a size is a multiple of another one.
pub(crate) fn multiple(unit: u32, size: u32) -> bool
    requires { 1 ≤ unit }
    ensures { Decides result (Multiple unit size) }
{
    unit != size && size % unit == 0
}

/// Whether a size is a multiple of another one of the sizes.
pub(crate) fn multiple_of_some(sizes: &[u16], size: u32) -> bool
    requires { Sized sizes.now }
    ensures { Decides result (Spare sizes.now size) }
{
    sizes.iter().any(|&unit| multiple(u32::from(unit), size))
}
