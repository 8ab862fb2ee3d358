//! Lines of the log, loaded while no session is open: nobody is answered or sent a delta.
ghost use Rattle.std.specs.Prelude.{◌≡◌, [], is_some, None, Some};
ghost use Rattle.djq_machine.specs.Loading.{LoadStep, StoreLoads, done_loaded, refused_by};
ghost use Rattle.djq_commands.specs.Views.{loading_in};
ghost use Rattle.djq_core.specs.Loading.{IsUnused, HoldsInBatch, LoadsLine, comes_to, is_batch};
ghost use Rattle.djq_commands.specs.Sound.{BatchSuits};
ghost use Rattle.djq_commands.specs.Stepping.{IsRunnable};

use super::Core;
use djq_commands::{BatchLine, is_registered, is_removal, read_in_batch};
use djq_counters::{Ledgers, Steps};
use djq_machine::Loaded;
use djq_model::{Name, Value};
use djq_parser::{LineRefusal, read_command};
use djq_protocol::{Command, DoneRefusal, LineRefusal as HeldRefusal, Refusal, Verb};
use djq_store::Store;
use djq_transaction::Transaction;
use std::alloc::Global;

impl Core {
    /// Loads a line that was logged, while no session is open: it does to the relations, their rows and
    /// copies, and the queries what it did as it was run, and the lines of a batch are held until it is
    /// done. A line that wouldn't be logged is refused, and does nothing, as out of memory.
    pub fn load<L: Ledgers>(&mut self, line: &[u8], steps: &mut Steps<L>) -> Loaded
        requires none { self.old.state.sessions ≡ [] }
        ensures loads { LoadStep (loading_in self.old) line.now result (loading_in self.new) }
        ensures rest { self.new.state ≡ record self.old.state { store = self.new.state.store } }
        ensures listing { steps.new.listing ≡ steps.old.listing }
    {
        match self.batch.take() {
            None => {
                let (loaded, batch) = load_alone(self.alloc, &mut self.engine, line, steps);
                self.batch = batch;
                loaded
            }
            Some(held) => {
                let (loaded, batch) = load_in_batch(
                    self.alloc,
                    &mut self.engine,
                    held,
                    line,
                    &mut self.row,
                    steps,
                );
                self.batch = batch;
                loaded
            }
        }
    }

    /// Whether the lines that were loaded have opened a batch that they haven't closed. It needs no
    /// memory.
    pub fn load_open(&self) -> bool
        ensures { result ≡ is_some self.now.batch }
    {
        self.batch.is_some()
    }
}

/// Loads a line if no batch is open; and the batch that it opens, if it does.
fn load_alone<L: Ledgers>(
    alloc: Global,
    engine: &mut Store,
    line: &[u8],
    steps: &mut Steps<L>,
) -> (Loaded, Option<Transaction>)
    requires { IsUnused engine.old }
    ensures loads { LoadsLine line.now result.0 engine.old None engine.new result.1 }
    ensures listing { steps.new.listing ≡ steps.old.listing }
{
    match read_command(alloc, line) {
        Ok(command) => {
            if is_batch(&command) {
                return (Loaded::Ran, Some(Transaction::new(alloc)));
            }
            (load_command(engine, command, steps), None)
        }
        Err(LineRefusal::Syntax) => (Loaded::Refused, None),
        Err(LineRefusal::Range) => (Loaded::Refused, None),
        Err(LineRefusal::NoMem) => (Loaded::NoMem, None),
    }
}

/// Whether a command opens a batch.
fn is_batch(command: &Command) -> bool
    ensures { result ≡ is_batch command.now }
{
    matches!(command, Command::Batch)
}

/// Does a command of a kind that is logged by itself, and refuses any other.
fn load_command<L: Ledgers>(engine: &mut Store, command: Command, steps: &mut Steps<L>) -> Loaded
    requires idle { IsUnused engine.old }
    requires runnable { IsRunnable command }
    ensures loads { StoreLoads engine.old.store command result engine.new.store }
    ensures idle { IsUnused engine.new }
    ensures listing { steps.new.listing ≡ steps.old.listing }
{
    match command {
        Command::Rel { name, types } => {
            let outcome = engine.rel(name, types);
            loaded(&outcome, outcome.is_ok())
        }
        Command::Add { name, row } => {
            let outcome = engine.add(&name, row.as_slice(), steps);
            loaded(&outcome, outcome.is_ok())
        }
        Command::Del { name, row } => {
            let outcome = engine.del(&name, row.as_slice(), steps);
            loaded(&outcome, is_removal(outcome))
        }
        Command::Query { query } => {
            let outcome = engine.query(query, steps);
            loaded(&outcome, is_registered(&outcome))
        }
        Command::Union { name, members } => {
            let outcome = engine.add_union(name, members.as_slice());
            loaded(&outcome, outcome.is_ok())
        }
        Command::Drop { query } => {
            let outcome = engine.drop_query(&query);
            loaded(&outcome, outcome.is_ok())
        }
        _ => Loaded::Refused,
    }
}

/// Loads a line while a batch is open, which holds these lines; and returns the batch that is open then.
fn load_in_batch<L: Ledgers>(
    alloc: Global,
    engine: &mut Store,
    held: Transaction,
    line: &[u8],
    row: &mut Vec<Value>,
    steps: &mut Steps<L>,
) -> (Loaded, Option<Transaction>)
    requires idle { IsUnused engine.old }
    requires suits { BatchSuits engine.old.store (Some held) }
    ensures loads { LoadsLine line.now result.0 engine.old (Some held) engine.new result.1 }
    ensures listing { steps.new.listing ≡ steps.old.listing }
{
    match read_in_batch(alloc, line, row) {
        BatchLine::Hold(verb, name) => {
            let name = Name::new(name);
            let mut held = held;
            let outcome = hold(engine, &mut held, verb, &name, row.as_slice(), line);
            (loaded(&outcome, outcome.is_ok()), Some(held))
        }
        BatchLine::Done(given) => {
            let outcome = engine.done(&held, given, steps);
            (done_loaded(&outcome), None)
        }
        BatchLine::Abandon => (Loaded::Ran, None),
        BatchLine::Quit => (Loaded::Refused, Some(held)),
        BatchLine::Stop => (Loaded::Refused, Some(held)),
        BatchLine::Refused(refusal) => (refused(refusal), Some(held)),
    }
}

/// A line of a batch is held after the others.
///
/// # Errors
///
/// Why it isn't held: its row doesn't suit a relation, or the batch has no room for it; or out of memory.
fn hold(
    engine: &Store,
    held: &mut Transaction,
    verb: Verb,
    name: &Name,
    row: &[Value],
    line: &[u8],
) -> Result<(), Refusal>
    ensures { HoldsInBatch engine.now.store held.old line.now verb name.now row.now result held.new }
{
    engine.held_ok(name, row)?;
    if !held.has_room(line.len()) {
        return Err(Refusal::Limit);
    }
    match held.hold(verb, *name, row, line) {
        Ok(()) => Ok(()),
        Err(_) => Err(Refusal::NoMemory),
    }
}

/// What the outcome of `done` means.
fn done_loaded(outcome: &Result<usize, DoneRefusal>) -> Loaded
    ensures { result ≡ done_loaded outcome.now }
{
    match outcome {
        Ok(_) => Loaded::Ran,
        Err(DoneRefusal::NoMemory) => Loaded::NoMem,
        Err(DoneRefusal::Line(line)) => match line.refusal {
            HeldRefusal::NoMemory => Loaded::NoMem,
            HeldRefusal::Limit | HeldRefusal::Absent => Loaded::Refused,
        },
        Err(DoneRefusal::OtherNumber | DoneRefusal::LastChange) => Loaded::Refused,
    }
}

/// What a result means, by whether its line would be logged.
fn loaded<A>(outcome: &Result<A, Refusal>, kept: bool) -> Loaded
    ensures { result ≡ comes_to outcome.now kept }
{
    match outcome {
        Ok(_) => { if kept { Loaded::Ran } else { Loaded::Refused } }
        Err(refusal) => refused(*refusal),
    }
}

/// What a line that is refused means.
fn refused(refusal: Refusal) -> Loaded
    ensures { result ≡ refused_by refusal }
{
    match refusal {
        Refusal::NoMemory => Loaded::NoMem,
        _ => Loaded::Refused,
    }
}
