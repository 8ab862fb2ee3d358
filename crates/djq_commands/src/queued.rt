ghost use Rattle.std.specs.Prelude.{◌≡◌};

use djq_model::Name;
use djq_session::Session;
use djq_store::CursorId;

/// The most bytes that were queued for one session since the open commit began. No contract speaks of the number:
/// it only decides when a commit is full.
#[derive(Clone, Copy, Debug)]
pub struct Queued {
    // the number of the commit, modulo 2^64
    commit: u64,
    most: u64,
}

impl Queued {
    /// Nothing was queued, and no commit began before.
    pub fn new() -> Self {
        Queued { commit: 0, most: 0 }
    }

    /// The next commit begins.
    pub fn begin(&mut self) {
        self.commit = self.commit.wrapping_add(1);
        self.most = 0;
    }

    /// The commit reaches a session, before anything is queued for it.
    #[inline]
    pub fn enter(&self, session: &mut Session<CursorId, Name>)
        ensures { session.new ≡ session.old }
    {
        session.begin_commit(self.commit);
    }

    /// Counts what was queued for a session that the commit has reached.
    #[inline]
    pub fn count(&mut self, session: &Session<CursorId, Name>) {
        self.most = self.most.max(session.queued_in_commit());
    }

    /// The most bytes that were queued for one session since the commit began.
    pub fn most(&self) -> u64 {
        self.most
    }
}
