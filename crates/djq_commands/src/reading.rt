//! What a line means while a batch is open: few commands are for one.
ghost use Rattle.std.specs.Prelude.{◌≡◌, false};
ghost use Rattle.djq_model.specs.Data.{Tuple};
ghost use Rattle.djq_parser.specs.RowReading.{begins_row};
ghost use Rattle.djq_value.specs.Token.{tokens};
ghost use Rattle.djq_commands.specs.Batching.{ReadsInBatch, in_batch, misplaced_as};
ghost use Rattle.djq_commands.specs.Stepping.{refused_as};

use djq_model::Value;
use djq_parser::{LineRefusal, RowLine, read_command, read_row};
use djq_protocol::{Command, Refusal, Verb};
use std::alloc::Global;

/// What a line means while a batch is open. A name is bytes of the line.
#[derive(Clone, Copy, Debug)]
pub enum BatchLine<'a> {
    /// The row that was read is to be inserted into the relation of this name, or to be deleted from it.
    Hold(Verb, &'a [u8]),
    /// The batch is done, with the number of lines that the line names.
    Done(Option<u32>),
    /// It is dropped.
    Abandon,
    /// The session ends.
    Quit,
    /// The whole server ends.
    Stop,
    /// The line is refused.
    Refused(Refusal),
}

/// Reads a line while a batch is open. The values of a row replace those that `row` has.
pub fn read_in_batch<'a>(alloc: Global, line: &'a [u8], row: &mut Vec<Value>) -> BatchLine<'a>
    ensures { ReadsInBatch line.now result row.new.items }
{
    match read_row(alloc, line, row) {
        RowLine::Add(name) => BatchLine::Hold(Verb::Add, name),
        RowLine::Del(name) => BatchLine::Hold(Verb::Delete, name),
        RowLine::Refused(_verb, refusal) => BatchLine::Refused(refusal_of(refusal)),
        RowLine::Other => read_other(alloc, line),
    }
}

/// The same for a line that isn't one of a row.
fn read_other<'a>(alloc: Global, line: &[u8]) -> BatchLine<'a>
    requires { begins_row (tokens line.now) ≡ false }
    ensures { (row : Tuple) → ReadsInBatch line.now result row }
{
    match read_command(alloc, line) {
        Ok(command) => line_of(&command),
        Err(refusal) => BatchLine::Refused(misplaced_of(refusal)),
    }
}

/// What a command that isn't one of a row means in a batch.
fn line_of<'a>(command: &Command) -> BatchLine<'a>
    ensures { result ≡ in_batch command.now }
{
    match command {
        Command::Done { count } => BatchLine::Done(*count),
        Command::Abandon => BatchLine::Abandon,
        Command::Quit => BatchLine::Quit,
        Command::Stop => BatchLine::Stop,
        _ => BatchLine::Refused(Refusal::Misplaced),
    }
}

/// The refusal that answers a line that gives no command, if its command isn't misplaced.
pub fn refusal_of(refusal: LineRefusal) -> Refusal
    ensures { result ≡ refused_as refusal }
{
    match refusal {
        LineRefusal::Syntax => Refusal::Syntax,
        LineRefusal::Range => Refusal::WrongType,
        LineRefusal::NoMem => Refusal::NoMemory,
    }
}

/// The refusal that answers it if its command would be misplaced.
fn misplaced_of(refusal: LineRefusal) -> Refusal
    ensures { result ≡ misplaced_as refusal }
{
    match refusal {
        LineRefusal::Syntax => Refusal::Syntax,
        LineRefusal::Range | LineRefusal::NoMem => Refusal::Misplaced,
    }
}
