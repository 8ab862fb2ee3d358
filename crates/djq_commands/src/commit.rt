ghost use Rattle.std.specs.Prelude.{◌≡◌, ◌≤◌, ◌<◌, ◌+◌, ◌^◌, ◌++◌, ◌∷◌, [], true, IfOk, length, slice_get};
ghost use Rattle.std.specs.Prelude.{vec_len, vec_capacity};
ghost use Rattle.std.specs.Option.{option_copied};
ghost use Rattle.djq_protocol.specs.declared.limits.TheConstants.{LINE_BYTES};
ghost use Rattle.djq_commands.specs.Logging.{EndsAreWithin, HasRoom, IsPlace, entry_lines, line_where};
ghost use Rattle.djq_store_spec.specs.Held.{log_lines};
ghost use Rattle.djq_commands.specs.Changing.{lines_logged};
ghost use Rattle.djq_commands.specs.Sound.{Rises};

use crate::change::{Outcome, is_removal};
use bytes::BytesMut;
use djq_model::NoMem;
use djq_protocol::limits::LINE_BYTES;
use djq_transaction::Transaction;
use std::alloc::Global;
use std::marker::Model;

/// A commit is full if its lines have so many bytes.
const COMMIT_BYTES: usize = 1_048_576;

/// And if more bytes than these were queued for one session since it began.
const QUEUED_BYTES: u64 = 65_536;

/// The bytes of `batch` and of `done`.
const BATCH_BYTES: usize = 9;

/// A number of lines that no commit reaches, by their bytes.
const MOST_LINES: u128 = 1 << 64;

/// Memory for more bytes of lines than these is given back once the commit is cleared.
const BUFFER_BYTES: usize = COMMIT_BYTES + LINE_BYTES;

/// And memory for more entries than these, one for each line that is run for a commit and one more.
const ENTRIES: usize = 1_025;

/// What one step logged.
#[derive(Drop)]
pub enum Entry {
    /// A line: the bytes of the buffer from `start` to `end`.
    Line {
        /// Its first byte.
        start: usize,
        /// Its end.
        end: usize,
    },
    /// A batch, by what it held: its lines aren't copied.
    Batch(Transaction),
}

/// The open commit: the lines that steps logged since it was last cleared. Contracts see their list, the line
/// that was copied last, and whether there is room for what one step more logs.
///
/// ```text
/// bytes     add r 1 10 add r 1 11 add r 2 5      two lines that were logged, and the copy of a third
/// end       20
/// entries   0..10    10..20    a batch of 3 lines
/// firsts    0        1         2
/// lines     7                                    those of the batch with `batch` and `done`
/// ```
#[derive(Drop)]
pub struct Commit {
    bytes: BytesMut,
    end: usize,
    entries: Vec<Entry>,
    firsts: Vec<u128>,
    lines: u128,
    // how many bytes the lines have
    size: usize,
    room: bool,
    alloc: Global,
}

impl Model for Commit {
    ghost use Rattle.std.specs.Prelude.{drop, vec_capacity};
    ghost use Rattle.djq_commands.specs.Logging.{OpenCommit, CommitIsKept, lines_of_entries};

    ghost Value = { OpenCommit };

    ghost view = { λ c. record {
      lines = lines_of_entries c.bytes.items c.entries.items;
      line = drop c.end c.bytes.items;
      room = c.room;
    } };

    ghost invariant = { λ c. CommitIsKept c.bytes.items c.bytes.spare c.end c.entries.items (vec_capacity c.entries)
        c.firsts.items (vec_capacity c.firsts) c.lines c.room };
}

impl Commit {
    /// An empty commit, with memory for what one step logs.
    ///
    /// # Errors
    ///
    /// `NoMem` out of memory.
    pub fn new(alloc: Global) -> Result<Commit, NoMem>
        ensures { IfOk result (λ commit. commit.lines ≡ []) }
    {
        Ok(Commit {
            bytes: BytesMut::with_capacity(alloc, LINE_BYTES)?,
            end: 0,
            entries: Vec::with_capacity(alloc, 1)?,
            firsts: Vec::with_capacity(alloc, 1)?,
            lines: 0,
            size: 0,
            room: false,
            alloc,
        })
    }

    /// Copies a line, in place of the last copy. It asks for no memory.
    pub fn copy(&mut self, line: &[u8])
        requires room { HasRoom self.old }
        requires few { length line.now ≤ LINE_BYTES }
        ensures { self.new ≡ record self.old { line = line.now } }
    {
        self.bytes.truncate(self.end);
        self.bytes.extend_reserved(line);
    }

    /// Appends the line that was copied last, if it is to be logged. It asks for no memory.
    pub fn log_line(&mut self, logged: bool)
        requires room { HasRoom self.old }
        ensures { self.new.lines ≡ self.old.lines ++ line_where logged self.old.line }
    {
        if logged {
            let end = self.bytes.len();
            self.size = self.size.saturating_add(end - self.end);
            self.firsts.push_reserved(self.lines);
            self.entries.push_reserved(Entry::Line {
                start: self.end,
                end,
            });
            self.lines += 1;
            self.end = end;
            self.room = false;
        }
    }

    /// Appends what is to be logged of a command that may change rows, which this is of: the line that was copied
    /// last, or the batch that it ended. It asks for no memory.
    pub fn log_outcome(&mut self, outcome: Outcome)
        requires room { HasRoom self.old }
        ensures { self.new.lines ≡ self.old.lines ++ lines_logged outcome self.old.line }
    {
        match outcome {
            Outcome::Added(result) => self.log_line(result.is_ok()),
            Outcome::Deleted(result) => self.log_line(is_removal(result)),
            Outcome::Done(result, held) => {
                if result.is_ok() {
                    self.log_batch(held);
                }
            }
        }
    }

    /// Appends a batch that was done, by what it held: `batch`, its lines, and `done`. It needs no memory.
    fn log_batch(&mut self, held: Transaction)
        requires room { HasRoom self.old }
        ensures { self.new.lines ≡ self.old.lines ++ log_lines held }
    {
        let rows = held.len();
        self.size = self
            .size
            .saturating_add(held.bytes())
            .saturating_add(BATCH_BYTES);
        self.firsts.push_reserved(self.lines);
        self.entries.push_reserved(Entry::Batch(held));
        self.lines += rows as u128 + 2;
        self.room = false;
    }

    /// Makes sure of room for what one step more logs, unless the commit is full: its lines have as many bytes as
    /// they may have, or more bytes than may be were queued for one session, of which this is the most.
    pub fn has_room(&mut self, most_queued: u64) -> bool
        ensures room { self.new.room ≡ result }
        ensures lines { self.new.lines ≡ self.old.lines }
    {
        let open = self.size < COMMIT_BYTES && most_queued <= QUEUED_BYTES;
        self.bytes.truncate(self.end);
        self.room = reserve(
            open,
            self.lines,
            &mut self.bytes,
            &mut self.entries,
            &mut self.firsts,
        );
        self.room
    }

    /// The line with this number, counted from 0, of those that were logged.
    pub fn get(&self, i: usize) -> Option<&[u8]>
        ensures { option_copied result ≡ slice_get self.now.lines i }
    {
        let at = place_of(self.firsts.as_slice(), i as u128);
        match self.entries.get(at) {
            None => None,
            Some(entry) => {
                let nth = (i as u128 - self.firsts[at]) as usize;
                line_of(entry, self.bytes.as_slice(), nth)
            }
        }
    }

    /// Empties the commit, and gives memory back that only a large one needs.
    pub fn clear(&mut self)
        ensures { self.new.lines ≡ [] }
    {
        clear_bytes(self.alloc, &mut self.bytes);
        clear_items(self.alloc, &mut self.entries);
        clear_items(self.alloc, &mut self.firsts);
        self.end = 0;
        self.lines = 0;
        self.size = 0;
        self.room = false;
    }
}

/// Makes sure of memory for a line and an entry more, if the commit is open; and whether there is.
fn reserve(
    open: bool,
    lines: u128,
    bytes: &mut BytesMut,
    entries: &mut Vec<Entry>,
    firsts: &mut Vec<u128>,
) -> bool
    ensures bytes { (bytes.new.items ≡ bytes.old.items) × (bytes.old.spare ≤ bytes.new.spare) }
    ensures entries { (entries.new.items ≡ entries.old.items) × (vec_capacity entries.old ≤ vec_capacity entries.new) }
    ensures firsts { (firsts.new.items ≡ firsts.old.items) × (vec_capacity firsts.old ≤ vec_capacity firsts.new) }
    ensures room { result ≡ true → (lines < 2 ^ 64) × (LINE_BYTES ≤ bytes.new.spare) × (vec_len entries.new < vec_capacity entries.new)
        × (vec_len firsts.new < vec_capacity firsts.new) }
{
    if !open || lines >= MOST_LINES {
        return false;
    }
    if bytes.reserve(LINE_BYTES).is_err() || entries.reserve(1).is_err() {
        return false;
    }
    firsts.reserve(1).is_ok()
}

/// Empties the buffer, and gives memory back that only a large commit needs.
fn clear_bytes(alloc: Global, bytes: &mut BytesMut)
    requires { LINE_BYTES ≤ length bytes.old.items + bytes.old.spare }
    ensures { (bytes.new.items ≡ []) × (LINE_BYTES ≤ bytes.new.spare) }
{
    bytes.clear();
    if bytes.capacity() > BUFFER_BYTES {
        shrink_bytes(alloc, bytes);
    }
}

/// Gives a large buffer back that is empty. It is a function of its own so that the path of a small commit is free of it.
#[cold]
#[inline(never)]
fn shrink_bytes(alloc: Global, bytes: &mut BytesMut)
    requires { (bytes.old.items ≡ []) × (LINE_BYTES ≤ bytes.old.spare) }
    ensures { (bytes.new.items ≡ []) × (LINE_BYTES ≤ bytes.new.spare) }
{
    if let Ok(small) = BytesMut::with_capacity(alloc, LINE_BYTES) {
        *bytes = small;
    }
}

/// The same of a list.
fn clear_items<T: Drop>(alloc: Global, items: &mut Vec<T>)
    requires { 0 < vec_capacity items.old }
    ensures { (items.new.items ≡ []) × (0 < vec_capacity items.new) }
{
    items.clear();
    if items.capacity() > ENTRIES {
        shrink_items(alloc, items);
    }
}

/// The same of a list that is empty.
#[cold]
#[inline(never)]
fn shrink_items<T: Drop>(alloc: Global, items: &mut Vec<T>)
    requires { (items.old.items ≡ []) × (0 < vec_capacity items.old) }
    ensures { (items.new.items ≡ []) × (0 < vec_capacity items.new) }
{
    if let Ok(few) = Vec::with_capacity(alloc, ENTRIES) {
        *items = few;
    }
}

/// The line of an entry with this number, if it has one.
fn line_of<'a>(entry: &'a Entry, bytes: &'a [u8], nth: usize) -> Option<&'a [u8]>
    requires { EndsAreWithin (length bytes.now) (entry.now ∷ []) }
    ensures { option_copied result ≡ slice_get (entry_lines bytes.now entry.now) nth }
{
    match entry {
        Entry::Line { start, end } => {
            if nth == 0 {
                Some(&bytes[*start..*end])
            } else {
                None
            }
        }
        Entry::Batch(held) => held.line(nth),
    }
}

/// Which entry has the line with this number, if one does, by the numbers of their first lines: the last one of
/// which the first line has no higher number. If each entry before it has one line, that is the entry at the
/// number itself.
fn place_of(firsts: &[u128], i: u128) -> usize
    requires { Rises firsts.now }
    ensures { IsPlace firsts.now i result }
{
    if i < firsts.len() as u128 {
        let near = i as usize;
        if firsts[near] == i {
            return near;
        }
    }
    match firsts.binary_search(&i) {
        Ok(at) => at,
        Err(at) => at.saturating_sub(1),
    }
}
