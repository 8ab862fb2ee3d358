ghost use Rattle.std.specs.Prelude.{◌≡◌, ℕ, [], ◌∷◌, ◌+◌, ◌*◌, ◌<◌, ◌≤◌, true, false, None, Some};
ghost use Rattle.std.specs.Prelude.{IfOk, OnOk, OnErr, length, replicate};
ghost use Rattle.djq_load.specs.Load.{load};
ghost use Rattle.djq_protocol.specs.Line.{behind_lf};
ghost use Rattle.djq_machine.specs.State.{opening};
ghost use Rattle.djq_machine.specs.Call.{IsOpen, cause_of, counts};
ghost use Rattle.djq_machine.specs.Run.{pending_of};
ghost use Rattle.djq_io.specs.declared.limits.TheConstants.{READ_BYTES};
ghost use Rattle.djq_load.specs.Lines.{FeedsLines, Feeds, LoadBreaksOff, SessionIsIdle, LineRuns, TakesAll};
ghost use Rattle.djq_load.specs.Lines.{CursorStands};
ghost use Rattle.djq_load.specs.Joins.{GivesFew};
ghost use Rattle.djq_load.specs.Totals.{ReadsSoFar, TotalsAreTold, open_line, next_line, RunsLoad, BreaksReading};
ghost use Rattle.djq_load.specs.Totals.{RunsOut};

use crate::reading::Reading;
use crate::{LINE_BYTES, Load};
use djq_counters::{Ledgers, Steps};
use djq_machine::{Fed, Machine};
use djq_model::NoMem;

/// The id of the session of a load.
const ID: u64 = 1;

/// The totals of a load.
#[derive(Clone, Copy, Debug, PartialEq, Eq)]
pub struct Totals {
    /// The number of answers of its query.
    pub answers: u64,
    /// What the integers of these answers add up to, modulo 2^64.
    pub sum: u64,
}

/// Opens session 1 of a machine, and feeds it the load of so many changes with a seed, line by line.
/// Then it reads the answers of its query through a cursor, a thousand at a time, until it gets the
/// `end` and no further. The session is open then and hasn't ended. Nothing has happened to the
/// machine before. So the answers are no more than the square of the most rows of a relation, and
/// the `end` is reached.
///
/// # Errors
///
/// `NoMem` if the machine is out of memory: nothing was done, or one of these lines was the last
/// that was fed, with each before it answered. No more is counted of listings than the lines that were
/// fed may cost.
pub fn run_load<M: Machine, L: Ledgers>(
    machine: &mut M,
    n: u32,
    seed: u32,
    steps: &mut Steps<L>,
) -> Result<Totals, NoMem>
    requires { M.state machine.old ≡ opening }
    ensures totals { IfOk result (λ totals. RunsLoad n seed totals
        (M.state machine.old) (counts steps.old.listing steps.old.update steps.old.rows)
        (M.state machine.new) (counts steps.new.listing steps.new.update steps.new.rows)) }
    ensures memory { OnErr result (RunsOut n seed
        (M.state machine.old) (counts steps.old.listing steps.old.update steps.old.rows)
        (M.state machine.new) (counts steps.new.listing steps.new.update steps.new.rows)) }
{
    if machine.open_session(ID).is_err() {
        return Err(NoMem);
    }
    feed_load(machine, n, seed, steps)?;
    open_cursor(machine, steps)?;
    list_answers(machine, steps)
}

/// Feeds the lines of a load, and runs each. After a line at which memory is wanting none is fed.
fn feed_load<M: Machine, L: Ledgers>(
    machine: &mut M,
    n: u32,
    seed: u32,
    steps: &mut Steps<L>,
) -> Result<(), NoMem>
    requires { SessionIsIdle (M.state machine.old) }
    ensures loads { OnOk result (FeedsLines (load n seed)
        (M.state machine.old) (counts steps.old.listing steps.old.update steps.old.rows)
        (M.state machine.new) (counts steps.new.listing steps.new.update steps.new.rows)) }
    ensures idle { OnOk result (SessionIsIdle (M.state machine.new)) }
    ensures breaks { OnErr result (LoadBreaksOff (load n seed)
        (M.state machine.old) (counts steps.old.listing steps.old.update steps.old.rows)
        (M.state machine.new) (counts steps.new.listing steps.new.update steps.new.rows)) }
{
    let mut load = Load::new(n, seed);
    let mut line = [0; LINE_BYTES];
    'lines: while let Some(count) = load.line(&mut line) {
        feed_line(machine, &line[..count], steps)?;
    }
    Ok(())
}

/// Feeds a line and runs it, and consumes the reply, unless that is that memory is wanting.
fn feed_line<M: Machine, L: Ledgers>(
    machine: &mut M,
    line: &[u8],
    steps: &mut Steps<L>,
) -> Result<(), NoMem>
    requires idle { SessionIsIdle (M.state machine.old) }
    requires one { behind_lf line.now ≡ Some [] }
    requires short { length line.now ≤ READ_BYTES }
    ensures loads { OnOk result (FeedsLines (line.now ∷ [])
        (M.state machine.old) (counts steps.old.listing steps.old.update steps.old.rows)
        (M.state machine.new) (counts steps.new.listing steps.new.update steps.new.rows)) }
    ensures idle { OnOk result (SessionIsIdle (M.state machine.new)) }
    ensures breaks { OnErr result (Feeds (line.now ∷ [])
        (M.state machine.old) (counts steps.old.listing steps.old.update steps.old.rows)
        (M.state machine.new) (counts steps.new.listing steps.new.update steps.new.rows)) }
{
    run_line(machine, line, steps)?;
    if machine.pending(ID) == b"err 12 memory\n".as_slice() {
        return Err(NoMem);
    }
    take_reply(machine);
    Ok(())
}

/// Opens the cursor.
fn open_cursor<M: Machine, L: Ledgers>(machine: &mut M, steps: &mut Steps<L>) -> Result<(), NoMem>
    requires { SessionIsIdle (M.state machine.old) }
    ensures loads { OnOk result (FeedsLines (open_line ∷ [])
        (M.state machine.old) (counts steps.old.listing steps.old.update steps.old.rows)
        (M.state machine.new) (counts steps.new.listing steps.new.update steps.new.rows)) }
    ensures idle { OnOk result (SessionIsIdle (M.state machine.new)) }
    ensures stands { OnOk result (CursorStands (M.state machine.new) [] false) }
    ensures breaks { OnErr result (Feeds (open_line ∷ [])
        (M.state machine.old) (counts steps.old.listing steps.old.update steps.old.rows)
        (M.state machine.new) (counts steps.new.listing steps.new.update steps.new.rows)) }
{
    run_line(machine, b"open c q\n", steps)?;
    if machine.pending(ID) != b"ok open\n".as_slice() {
        return Err(NoMem);
    }
    take_reply(machine);
    Ok(())
}

/// Reads the cursor to its end, and no further.
fn list_answers<M: Machine, L: Ledgers>(
    machine: &mut M,
    steps: &mut Steps<L>,
) -> Result<Totals, NoMem>
    requires idle { SessionIsIdle (M.state machine.old) }
    requires stands { CursorStands (M.state machine.old) [] false }
    requires few { GivesFew (M.state machine.old) }
    ensures told { IfOk result (λ totals. (k : ℕ) × FeedsLines (replicate k next_line)
        (M.state machine.old) (counts steps.old.listing steps.old.update steps.old.rows)
        (M.state machine.new) (counts steps.new.listing steps.new.update steps.new.rows)
        × TotalsAreTold (M.state machine.new) totals k) }
    ensures running { OnOk result (cause_of (M.state machine.new) 1 ≡ None) }
    ensures breaks { OnErr result (BreaksReading []
        (M.state machine.old) (counts steps.old.listing steps.old.update steps.old.rows)
        (M.state machine.new) (counts steps.new.listing steps.new.update steps.new.rows)) }
{
    let mut reading = Reading::new();
    'reads: while !reading.ended {
        reading = read_more(machine, reading, steps)?;
    }
    Ok(Totals {
        answers: reading.answers,
        sum: reading.sum,
    })
}

/// Reads the cursor once.
fn read_more<M: Machine, L: Ledgers>(
    machine: &mut M,
    reading: Reading,
    steps: &mut Steps<L>,
) -> Result<Reading, NoMem>
    requires idle { SessionIsIdle (M.state machine.old) }
    requires going { reading.ended ≡ false }
    requires reads { (reads : ℕ) × ReadsSoFar (M.state machine.old) reading reads }
    ensures loads { OnOk result (FeedsLines (next_line ∷ [])
        (M.state machine.old) (counts steps.old.listing steps.old.update steps.old.rows)
        (M.state machine.new) (counts steps.new.listing steps.new.update steps.new.rows)) }
    ensures idle { OnOk result (SessionIsIdle (M.state machine.new)) }
    ensures read { IfOk result (λ after. (reads : ℕ) → ReadsSoFar (M.state machine.old) reading reads
        → ReadsSoFar (M.state machine.new) after (reads + 1)) }
    ensures breaks { OnErr result (Feeds (next_line ∷ [])
        (M.state machine.old) (counts steps.old.listing steps.old.update steps.old.rows)
        (M.state machine.new) (counts steps.new.listing steps.new.update steps.new.rows)) }
{
    run_line(machine, b"next c 1000\n", steps)?;
    let after = reading.read(machine.pending(ID));
    take_reply(machine);
    Ok(after)
}

/// Feeds a line and runs it. The session continues after it; or memory is wanting, as the line was fed
/// or as it was run.
fn run_line<M: Machine, L: Ledgers>(
    machine: &mut M,
    line: &[u8],
    steps: &mut Steps<L>,
) -> Result<(), NoMem>
    requires idle { SessionIsIdle (M.state machine.old) }
    requires one { behind_lf line.now ≡ Some [] }
    requires short { length line.now ≤ READ_BYTES }
    ensures runs { OnOk result (LineRuns line.now
        (M.state machine.old) (counts steps.old.listing steps.old.update steps.old.rows)
        (M.state machine.new) (counts steps.new.listing steps.new.update steps.new.rows)) }
    ensures open { OnOk result (IsOpen (M.state machine.new) 1) }
    ensures breaks { OnErr result (Feeds (line.now ∷ [])
        (M.state machine.old) (counts steps.old.listing steps.old.update steps.old.rows)
        (M.state machine.new) (counts steps.new.listing steps.new.update steps.new.rows)) }
{
    let Fed::Held = machine.feed(ID, line) else {
        return Err(NoMem);
    };
    // Nothing is logged here, so the commit has no reader.
    machine.clear_commit();
    machine.step(ID, steps);
    match machine.cause(ID) {
        None => Ok(()),
        Some(_) => Err(NoMem),
    }
}

/// Consumes all that is pending.
fn take_reply<M: Machine>(machine: &mut M)
    requires { IsOpen (M.state machine.old) 1 }
    ensures { TakesAll (M.state machine.old) (M.state machine.new) }
{
    let count = machine.pending(ID).len();
    if 0 < count {
        machine.took(ID, count);
    }
}
