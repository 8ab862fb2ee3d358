ghost use Rattle.std.specs.Prelude.{◌≡◌, slice_get};
ghost use Rattle.std.specs.Option.{option_copied};

use djq_log::Group;
use djq_machine::Machine;

/// The lines of the open commit of a machine, as a group.
#[derive(Drop)]
pub(crate) struct CommitLines<'a, M: Machine> {
    pub(crate) machine: &'a M,
}

impl<'a, M: Machine> Group for CommitLines<'a, M> {
    ghost lines = { λ a. M.commit a.machine.now };

    fn line(&self, i: usize) -> Option<&[u8]> {
        self.machine.commit_line(i)
    }
}
