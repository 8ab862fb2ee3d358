ghost use Rattle.std.specs.Prelude.{◌≡◌};

use super::Session;

impl<C: Copy, Q: Copy + PartialEq> Session<C, Q> {
    /// The commit of this number begins for the session: what is queued from here on is queued in it. If it
    /// had begun before, nothing changes.
    pub fn begin_commit(&mut self, commit: u64)
        ensures { self.new ≡ self.old }
    {
        if self.commit != commit {
            self.commit = commit;
            self.queued_before = self.queued();
        }
    }

    /// How many bytes were queued since the commit began, those that were sent among them.
    pub fn queued_in_commit(&self) -> u64 {
        self.queued().wrapping_sub(self.queued_before)
    }

    /// How many bytes were queued so far, modulo 2^64.
    fn queued(&self) -> u64 {
        self.taken.wrapping_add(self.output.len() as u64)
    }
}
