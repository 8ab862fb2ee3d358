ghost use Rattle.std.specs.Prelude.{◌≡◌, slice_get};
ghost use Rattle.std.specs.Option.{option_copied};

use djq_journal::Group;

/// A group of lines, as a record of the second format has it.
#[derive(Drop)]
pub(crate) struct Record<'a, G: Group> {
    pub(crate) group: &'a G,
}

impl<'a, G: Group> djq_log_file::Group for Record<'a, G> {
    ghost lines = { λ r. G.lines r.group.now };

    fn line(&self, i: usize) -> Option<&[u8]> {
        self.group.line(i)
    }
}
