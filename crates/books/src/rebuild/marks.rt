//! The strip of bytes that a rebuild borrows, one for each remainder: a guard clears it again on every way out.

ghost use Rattle.std.specs.Prelude.{◌≡◌, length, replicate};

/// The marks of remainders on a strip, a byte for each: no longer there once this is dropped.
pub(crate) struct Marks<'a> {
    pub(crate) strip: &'a mut [u8],
}

impl Drop for Marks<'_> {
    fn drop(self)
        ensures { self.exit.0.now ≡ replicate (length self.entry.strip.now) 0 }
    {
        let Marks { strip } = self;
        strip.fill(0);
    }
}
