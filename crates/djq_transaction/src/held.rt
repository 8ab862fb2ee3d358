//! The lines that a transaction holds, in one buffer.
ghost use Rattle.std.specs.Prelude.{◌≡◌, ◌++◌, [], ◌∷◌, ◌<◌, ◌≤◌, ◌==◌, true, length, slice_get, OnOk, OnErr, IfOk};
ghost use Rattle.std.specs.List.{sum_by};
ghost use Rattle.std.specs.Option.{option_copied};
ghost use Rattle.djq_protocol.specs.declared.limits.TheConstants.{HELD};
ghost use Rattle.djq_store_spec.specs.Held.{nothing_held, holding, has_room, transaction_line, log_lines};
ghost use Rattle.djq_transaction.specs.Buffer.{GetsOneMoreLine, HasTheSame};

use djq_model::{Name, NoMem, Text, Value};
use djq_protocol::Verb;
use djq_protocol::limits::{HELD, HELD_BYTES};
use std::alloc::Global;
use std::marker::Model;

/// What a line does, to a row of which relation, and the places of its values and its bytes.
#[derive(Clone, Copy, Debug)]
pub struct Entry {
    /// What it does.
    pub verb: Verb,
    /// The relation.
    pub relation: Name,
    /// The place of its first value among those of all lines.
    pub row_start: usize,
    /// The place after its last value.
    pub row_end: usize,
    /// The place of its first byte among those of all lines.
    pub line_start: usize,
    /// The place after its last byte.
    pub line_end: usize,
}

/// The lines of a transaction. A line's values and its bytes are each in one piece.
#[derive(Drop)]
pub struct Buffer {
    /// An entry of each line.
    pub entries: Vec<Entry>,
    /// The values of their rows.
    pub values: Vec<Value>,
    /// Their bytes.
    pub bytes: Vec<u8>,
}

/// Lines that are held until `done`, in one buffer: each with its row, and its bytes as they were received. Contracts see the
/// lines, and their bytes.
#[derive(Drop)]
pub struct Transaction {
    alloc: Global,
    buffer: Buffer,
}

impl Model for Transaction {
    ghost use Rattle.djq_store_spec.specs.Held.{HeldTransaction};

    ghost Value = { HeldTransaction };

    ghost use Rattle.djq_transaction.specs.Buffer.{lines_held_in, IsBuffer};

    ghost view = { λ t. lines_held_in t.buffer };

    ghost invariant = { λ t. IsBuffer t.buffer };
}

/// A copy of a value.
fn copy_value(alloc: Global, value: &Value) -> Result<Value, NoMem>
    ensures { IfOk result (λ v. v ≡ value.now) }
{
    match value {
        Value::Int(number) => Ok(Value::Int(*number)),
        Value::Text(text) => {
            let bytes = Vec::from_slice(alloc, text.as_bytes())?;
            Ok(Value::Text(Text::new(bytes)))
        }
    }
}

/// Appends a copy of a value.
fn push_copy(alloc: Global, values: &mut Vec<Value>, value: &Value) -> Result<(), NoMem>
    ensures ok { OnOk result (values.new.items ≡ values.old.items ++ value.now ∷ []) }
    ensures err { OnErr result (values.new.items ≡ values.old.items) }
{
    let copy = copy_value(alloc, value)?;
    values.push(copy)?;
    Ok(())
}

/// Appends a copy of each value of a row; or none, out of memory.
fn append_row(alloc: Global, values: &mut Vec<Value>, row: &[Value]) -> Result<(), NoMem>
    ensures ok { OnOk result (values.new.items ≡ values.old.items ++ row.now) }
    ensures err { OnErr result (values.new.items ≡ values.old.items) }
{
    let count = values.len();
    for at in 0..row.len() {
        match push_copy(alloc, values, &row[at]) {
            Ok(()) => {}
            Err(error) => {
                values.truncate(count);
                return Err(error);
            }
        }
    }
    Ok(())
}

/// Appends a line, with a copy of each value of its row; or all is as before, out of memory.
fn append_line(
    alloc: Global,
    buffer: &mut Buffer,
    verb: Verb,
    relation: Name,
    row: &[Value],
    line: &[u8],
) -> Result<(), NoMem>
    ensures ok { OnOk result (GetsOneMoreLine buffer.old verb relation row.now line.now buffer.new) }
    ensures err { OnErr result (HasTheSame buffer.old buffer.new) }
{
    buffer.entries.reserve(1)?;
    buffer.bytes.reserve(line.len())?;
    let row_start = buffer.values.len();
    append_row(alloc, &mut buffer.values, row)?;
    let line_start = buffer.bytes.len();
    let Ok(()) = buffer.bytes.extend_from_slice(line) else {
        unreachable!()
    };
    buffer.entries.push_reserved(Entry {
        verb,
        relation,
        row_start,
        row_end: buffer.values.len(),
        line_start,
        line_end: buffer.bytes.len(),
    });
    Ok(())
}

impl Transaction {
    /// A transaction that holds no line. It asks for no memory.
    pub fn new(alloc: Global) -> Transaction
        ensures { result ≡ nothing_held }
    {
        Transaction {
            alloc,
            buffer: Buffer {
                entries: Vec::new(alloc),
                values: Vec::new(alloc),
                bytes: Vec::new(alloc),
            },
        }
    }

    /// How many lines it holds.
    pub fn len(&self) -> usize
        ensures value { result ≡ length self.now.lines }
        ensures logged { result ≡ length self.now.logged }
        ensures few { result ≤ HELD }
    {
        self.buffer.entries.len()
    }

    /// Whether it holds none.
    pub fn is_empty(&self) -> bool
        ensures { result ≡ (length self.now.lines == 0) }
    {
        self.buffer.entries.is_empty()
    }

    /// How many bytes its lines have together.
    pub fn bytes(&self) -> usize
        ensures { result ≡ sum_by (λ l. length l) self.now.logged }
    {
        self.buffer.bytes.len()
    }

    /// Whether it may hold one more line, of this many bytes: it holds fewer than [`HELD`], and with this one
    /// they have at most [`HELD_BYTES`] bytes.
    pub fn has_room(&self, line: usize) -> bool
        ensures { result ≡ has_room self.now line }
    {
        self.buffer.entries.len() < HELD
            && self.buffer.bytes.len() <= HELD_BYTES
            && line <= HELD_BYTES - self.buffer.bytes.len()
    }

    /// Appends a line: what it does, to a row of which relation, and its bytes as received.
    ///
    /// # Errors
    ///
    /// `NoMem` out of memory; all is as before.
    pub fn hold(
        &mut self,
        verb: Verb,
        relation: Name,
        row: &[Value],
        line: &[u8],
    ) -> Result<(), NoMem>
        requires { has_room self.old (length line.now) ≡ true }
        ensures ok { OnOk result (self.new ≡ holding self.old verb relation row.now line.now) }
        ensures err { OnErr result (self.new ≡ self.old) }
    {
        append_line(self.alloc, &mut self.buffer, verb, relation, row, line)
    }

    /// What the line at a place does.
    pub fn verb(&self, at: usize) -> Verb
        requires { at < length self.now.lines }
        ensures { result ≡ (transaction_line self.now at).verb }
    {
        self.buffer.entries[at].verb
    }

    /// The relation of the line at a place.
    pub fn relation(&self, at: usize) -> Name
        requires { at < length self.now.lines }
        ensures { result ≡ (transaction_line self.now at).relation }
    {
        self.buffer.entries[at].relation
    }

    /// The row of the line at a place.
    pub fn row(&self, at: usize) -> &[Value]
        requires { at < length self.now.lines }
        ensures { result.now ≡ (transaction_line self.now at).row }
    {
        let entry = self.buffer.entries[at];
        &self.buffer.values[entry.row_start..entry.row_end]
    }

    /// The line of the log at a place, from 0: `batch`, the held lines as received, `done`. None from their number on.
    pub fn line(&self, at: usize) -> Option<&[u8]>
        ensures { option_copied result ≡ slice_get (log_lines self.now) at }
    {
        if at == 0 {
            return Some(b"batch");
        }
        if at <= self.buffer.entries.len() {
            let entry = self.buffer.entries[at - 1];
            return Some(&self.buffer.bytes[entry.line_start..entry.line_end]);
        }
        if at == self.buffer.entries.len() + 1 {
            return Some(b"done");
        }
        None
    }
}
