ghost use Rattle.std.specs.Prelude.{◌≡◌, [], ◌∷◌, slice_get};
ghost use Rattle.std.specs.Option.{option_copied};

use crate::group::Group;

/// A group of one line.
#[derive(Clone, Copy, Debug)]
pub struct OneLine<'a> {
    /// The line.
    pub line: &'a [u8],
}

impl<'a> Group for OneLine<'a> {
    ghost lines = { λ g. g.line.now ∷ [] };

    fn line(&self, i: usize) -> Option<&[u8]> {
        if i == 0 { Some(self.line) } else { None }
    }
}
