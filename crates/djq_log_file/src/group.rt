/// Lines that are appended together, as one record.
pub trait Group {
    ghost use Rattle.std.specs.Prelude.{◌≡◌, ℕ, List, slice_get};
    ghost use Rattle.std.specs.Option.{option_copied};

    // The lines, in order.
    ghost lines: { Self → List (List ℕ) };

    /// The line with this number, counted from 0.
    fn line(&self, i: usize) -> Option<&[u8]>
        ensures { option_copied result ≡ slice_get (lines self.now) i };
}
