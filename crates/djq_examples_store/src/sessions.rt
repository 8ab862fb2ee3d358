ghost use Rattle.std.specs.Prelude.{◌≡◌, ◌<◌, [], true, All};
ghost use Rattle.djq_machine.specs.Call.{IsOpen, may_run};

use djq_core::Core;
use djq_counters::{Blanks, Ledgers, Steps};
use djq_machine::{Loaded, Machine};
use djq_model::{Name, NoMem};
use djq_protocol::EndCause;
use std::marker::Brand;

mod scripts;

use scripts::SCRIPTS;

/// What a session does, or what is asked of it or of the core.
pub enum Move {
    /// It opens.
    Opens,
    /// So do all sessions up to it.
    Fills,
    /// It isn't let in.
    IsShut,
    /// It is closed.
    Closes,
    /// It sends something, and all its lines are run, each in a commit of its own.
    Says(&'static [u8]),
    /// It sends something, and one line is run.
    Steps(&'static [u8]),
    /// It sends something, and all its lines are run in one commit.
    Commits(&'static [u8]),
    /// It is sent this, which it reads.
    IsTold(&'static [u8]),
    /// One of these is pending for it, and it reads it: the lines of a delta may have any order.
    TakesEither(&'static [u8], &'static [u8]),
    /// It is sent this last.
    IsLast(&'static [u8]),
    /// More bytes than these are pending for it.
    HasMore(usize),
    /// It ended so.
    Ended(EndCause),
    /// The commit has these lines.
    Keeps(&'static [&'static [u8]]),
    /// A line is loaded, with this result.
    Loads(&'static [u8], Loaded),
    /// So many changes there were, and so many rows of `r` and sessions there are; and whether a session sent `stop`.
    Counts(u64, u64, usize, bool),
}

/// Whether a session is open.
fn is_open(core: &Core, id: u64) -> bool
    ensures { result ≡ true → IsOpen core.now.state id }
{
    let ids = core.ids();
    for at in 0..ids.len() {
        if ids[at] == id {
            return true;
        }
    }
    false
}

/// Whether an id is above those of the open sessions.
fn is_above(core: &Core, id: u64) -> bool
    ensures { result ≡ true → All (λ x. x.id < id) core.now.state.sessions }
{
    let ids = core.ids();
    for at in 0..ids.len() {
        if ids[at] >= id {
            return false;
        }
    }
    true
}

/// Opens a session, if that is allowed.
fn open(core: &mut Core, id: u64) -> bool {
    is_above(core, id) && core.open_session(id).is_ok()
}

/// Opens the sessions up to one.
fn fill(core: &mut Core, last: u64) -> bool {
    let mut all = true;
    for id in 1..=last {
        all = open(core, id) && all;
    }
    all
}

/// Closes a session.
fn close(core: &mut Core, id: u64) -> bool {
    let there = is_open(core, id);
    if there {
        core.close_session(id);
    }
    there
}

/// Whether a session has a line that may be run.
fn is_ready(core: &Core, id: u64) -> bool
    ensures { result ≡ true → may_run core.now.state id ≡ true }
{
    match core.ready(u128::from(id)) {
        Some(next) => next == id,
        None => false,
    }
}

/// A session sends something, and its lines are run in one commit, as long as there is room.
fn commit<L: Ledgers>(core: &mut Core, steps: &mut Steps<L>, id: u64, text: &[u8]) -> bool {
    if !is_open(core, id) {
        return false;
    }
    core.feed(id, text);
    core.clear_commit();
    for _ in 0..100 {
        if !core.has_room() || !is_ready(core, id) {
            break;
        }
        core.step(id, steps);
    }
    true
}

/// A session sends something, and at most so many of its lines are run, each in a commit of its own.
fn say<L: Ledgers>(core: &mut Core, steps: &mut Steps<L>, id: u64, text: &[u8], most: u32) -> bool {
    if !is_open(core, id) {
        return false;
    }
    core.feed(id, text);
    for _ in 0..most {
        if !is_ready(core, id) {
            break;
        }
        core.clear_commit();
        core.step(id, steps);
    }
    true
}

/// Whether one of these texts is pending for a session. What is pending is then removed.
fn takes_either(core: &mut Core, id: u64, one: &[u8], other: &[u8]) -> bool {
    if !is_open(core, id) {
        return false;
    }
    let text = core.pending(id);
    let right = text == one || text == other;
    let count = text.len();
    core.took(id, count);
    right
}

/// Whether a session is sent this last.
fn is_last(core: &Core, id: u64, want: &[u8]) -> bool {
    is_open(core, id) && core.pending(id).ends_with(want)
}

/// Whether more bytes than these are pending for a session.
fn has_more(core: &Core, id: u64, count: usize) -> bool {
    is_open(core, id) && core.pending(id).len() > count
}

/// Whether a session ended so.
fn has_ended(core: &Core, id: u64, cause: EndCause) -> bool {
    is_open(core, id) && core.cause(id) == Some(cause)
}

/// Whether the commit has these lines.
fn keeps(core: &Core, lines: &[&[u8]]) -> bool {
    for at in 0..lines.len() {
        match core.commit_line(at) {
            Some(line) if line == lines[at] => {}
            _ => return false,
        }
    }
    core.commit_line(lines.len()).is_none()
}

/// Whether no session is open.
fn is_idle(core: &Core) -> bool
    ensures { result ≡ true → core.now.state.sessions ≡ [] }
{
    core.ids().is_empty()
}

/// Whether a line, loaded, has this result.
fn loads<L: Ledgers>(core: &mut Core, steps: &mut Steps<L>, line: &[u8], want: Loaded) -> bool {
    is_idle(core) && core.load(line, steps) == want
}

/// Whether a move is made as it should be.
fn goes<L: Ledgers>(core: &mut Core, steps: &mut Steps<L>, id: u64, step: &Move) -> bool {
    match step {
        Move::Opens => open(core, id),
        Move::Fills => fill(core, id),
        Move::IsShut => !open(core, id),
        Move::Closes => close(core, id),
        Move::Says(text) => say(core, steps, id, text, 100),
        Move::Steps(text) => say(core, steps, id, text, 1),
        Move::Commits(text) => commit(core, steps, id, text),
        Move::IsTold(text) => takes_either(core, id, text, text),
        Move::TakesEither(one, other) => takes_either(core, id, one, other),
        Move::IsLast(text) => is_last(core, id, text),
        Move::HasMore(count) => has_more(core, id, *count),
        Move::Ended(cause) => has_ended(core, id, *cause),
        Move::Keeps(lines) => keeps(core, lines),
        Move::Loads(line, want) => loads(core, steps, line, *want),
        Move::Counts(seq, rows, sessions, stopped) => {
            core.seq() == *seq
                && core.rows(&Name::new(b"r")) == *rows
                && core.ids().len() == *sessions
                && core.stopped() == *stopped
        }
    }
}

/// The first move of a script that isn't made as it should be.
fn first_wrong<L: Ledgers>(
    rt: &HostRuntime,
    moves: &[(u64, Move)],
    blanks: Blanks,
) -> Result<Option<usize>, NoMem>
    requires listing { blanks.listing.name ≡ L.listing }
    requires update { blanks.update.name ≡ L.update }
    requires rows { blanks.rows.name ≡ L.rows }
{
    let mut steps = Steps::<L>::new(rt, blanks);
    let mut core = Core::new(rt.alloc())?;
    for at in 0..moves.len() {
        if !goes(&mut core, &mut steps, moves[at].0, &moves[at].1) {
            return Ok(Some(at));
        }
    }
    Ok(None)
}

#[test]
fn sessions_are_served(rt: HostRuntime) -> Result<(), NoMem> {
    for (name, moves) in SCRIPTS {
        assert_eq!(rt;
            first_wrong::<Brand>(&rt, moves, Blanks::new(&rt))?,
            None,
            "{name}"
        );
    }
    Ok(())
}
