//! Replies of at most 256 bytes, in room that was reserved.
ghost use Rattle.std.specs.Prelude.{◌≡◌, ◌+◌, ◌<◌, ◌≤◌, ◌++◌, codes, length};
ghost use Rattle.std.specs.Fmt.{decimal};
ghost use Rattle.djq_protocol.specs.Reply.{add_reply, bye, delete_reply, done_reply, has_reply};
ghost use Rattle.djq_protocol.specs.Reply.{held_reply, line, numbered_line, numbered_twice, ok_reply};
ghost use Rattle.djq_protocol.specs.Reply.{refusal_line, shape_reply, stale_line, union_reply};
ghost use Rattle.djq_protocol.specs.Reply.{watch_reply};
ghost use Rattle.djq_protocol.specs.declared.limits.TheConstants.{LAST_LINE_BYTES, REPLY_BYTES};
ghost use Rattle.djq_value.specs.Output.{Says};

use crate::refusal::{refusal_of_done, refusal_words};
use bytes::BytesMut;
use djq_model::Name;
use djq_protocol::{AddOutcome, DeleteOutcome, DoneRefusal, Refusal, Shape};
use djq_value::{digit_count, extend_digits};

/// A line of words.
#[inline]
pub(crate) fn say(out: &mut BytesMut, words: &[u8])
    requires { length words.now + 1 ≤ out.old.spare }
    ensures { Says out.old out.new (line words.now) }
{
    out.extend_reserved(words);
    out.extend_reserved(b"\n");
}

/// A number of 20 digits at most.
#[tactic(auto, using(crate::proofs::Printing::few_digits))]
fn say_decimal(out: &mut BytesMut, number: u64)
    requires { 20 ≤ out.old.spare }
    ensures { Says out.old out.new (decimal number) }
{
    extend_digits(number, digit_count(number), out);
}

/// Words, a number of 20 digits at most, and what follows it. At its call sites the words are
/// known, so they are written without a copy of unknown length.
#[inline(always)]
#[tactic(auto, using(crate::proofs::Printing::few_digits))]
fn say_digits(out: &mut BytesMut, words: &[u8], number: u64, behind: &[u8])
    requires { length words.now + 20 + length behind.now + LAST_LINE_BYTES ≤ out.old.spare }
    ensures kept { LAST_LINE_BYTES ≤ out.new.spare }
    ensures says { Says out.old out.new (words.now ++ decimal number ++ behind.now) }
{
    out.extend_reserved(words);
    say_decimal(out, number);
    out.extend_reserved(behind);
}

/// A line of words and a number.
#[inline(always)]
pub(crate) fn say_number(out: &mut BytesMut, words: &[u8], number: u64)
    requires { length words.now + 21 + LAST_LINE_BYTES ≤ out.old.spare }
    ensures kept { LAST_LINE_BYTES ≤ out.new.spare }
    ensures says { Says out.old out.new (numbered_line words.now number) }
{
    say_digits(out, words, number, b"\n");
}

/// A line of words, a number and one of a single digit.
#[inline(always)]
fn say_with_digit(out: &mut BytesMut, words: &[u8], number: u64, digit: u8)
    requires room { length words.now + 23 + LAST_LINE_BYTES ≤ out.old.spare }
    requires digit { digit < 10 }
    ensures kept { LAST_LINE_BYTES ≤ out.new.spare }
    ensures says { Says out.old out.new (numbered_twice words.now number digit) }
{
    say_digits(out, words, number, &[b' ', b'0' + digit, b'\n']);
}

/// A line of words and two numbers, each of 20 digits at most.
#[inline(always)]
#[tactic(auto, using(crate::proofs::Printing::few_digits))]
fn say_two_numbers(out: &mut BytesMut, words: &[u8], first: u64, second: u64)
    requires { length words.now + 42 + LAST_LINE_BYTES ≤ out.old.spare }
    ensures kept { LAST_LINE_BYTES ≤ out.new.spare }
    ensures says { Says out.old out.new (numbered_twice words.now first second) }
{
    out.extend_reserved(words);
    say_decimal(out, first);
    say_number(out, b" ", second);
}

/// Answers a refusal.
pub fn say_refused(out: &mut BytesMut, refusal: Refusal)
    requires room { REPLY_BYTES + LAST_LINE_BYTES ≤ out.old.spare }
    ensures kept { LAST_LINE_BYTES ≤ out.new.spare }
    ensures says { Says out.old out.new (refusal_line refusal) }
{
    say(out, refusal_words(refusal));
}

/// Answers `rel`, `drop`, `close`, `unwatch` and `abandon`.
pub fn say_done(out: &mut BytesMut, outcome: Result<(), Refusal>)
    requires room { REPLY_BYTES + LAST_LINE_BYTES ≤ out.old.spare }
    ensures kept { LAST_LINE_BYTES ≤ out.new.spare }
    ensures says { Says out.old out.new (ok_reply (codes "ok") outcome) }
{
    match outcome {
        Ok(()) => say(out, b"ok"),
        Err(refusal) => say_refused(out, refusal),
    }
}

/// Answers `open`.
pub fn say_opened(out: &mut BytesMut, outcome: Result<(), Refusal>)
    requires room { REPLY_BYTES + LAST_LINE_BYTES ≤ out.old.spare }
    ensures kept { LAST_LINE_BYTES ≤ out.new.spare }
    ensures says { Says out.old out.new (ok_reply (codes "ok open") outcome) }
{
    match outcome {
        Ok(()) => say(out, b"ok open"),
        Err(refusal) => say_refused(out, refusal),
    }
}

/// Answers `add`, at a number of changes.
pub fn say_added(out: &mut BytesMut, outcome: Result<AddOutcome, Refusal>, seq: u64)
    requires room { REPLY_BYTES + LAST_LINE_BYTES ≤ out.old.spare }
    ensures kept { LAST_LINE_BYTES ≤ out.new.spare }
    ensures says { Says out.old out.new (add_reply outcome seq) }
{
    match outcome {
        Ok(AddOutcome::First) => say_with_digit(out, b"ok added ", seq, 1),
        Ok(AddOutcome::More(copies)) => say_two_numbers(out, b"ok added ", seq, u64::from(copies)),
        Err(refusal) => say_refused(out, refusal),
    }
}

/// Answers `del`, at a number of changes.
pub fn say_deleted(out: &mut BytesMut, outcome: Result<DeleteOutcome, Refusal>, seq: u64)
    requires room { REPLY_BYTES + LAST_LINE_BYTES ≤ out.old.spare }
    ensures kept { LAST_LINE_BYTES ≤ out.new.spare }
    ensures says { Says out.old out.new (delete_reply outcome seq) }
{
    match outcome {
        Ok(DeleteOutcome::Last) => say_with_digit(out, b"ok removed ", seq, 0),
        Ok(DeleteOutcome::Left(copies)) => {
            say_two_numbers(out, b"ok removed ", seq, u64::from(copies))
        }
        Ok(DeleteOutcome::Absent) => say_number(out, b"ok absent ", seq),
        Err(refusal) => say_refused(out, refusal),
    }
}

/// Answers `has`.
pub fn say_has(out: &mut BytesMut, outcome: Result<bool, Refusal>)
    requires room { REPLY_BYTES + LAST_LINE_BYTES ≤ out.old.spare }
    ensures kept { LAST_LINE_BYTES ≤ out.new.spare }
    ensures says { Says out.old out.new (has_reply outcome) }
{
    match outcome {
        Ok(true) => say(out, b"yes"),
        Ok(false) => say(out, b"no"),
        Err(refusal) => say_refused(out, refusal),
    }
}

/// Answers `shape`.
pub fn say_shape(out: &mut BytesMut, outcome: Result<Shape, Refusal>)
    requires room { REPLY_BYTES + LAST_LINE_BYTES ≤ out.old.spare }
    ensures kept { LAST_LINE_BYTES ≤ out.new.spare }
    ensures says { Says out.old out.new (shape_reply outcome) }
{
    match outcome {
        Ok(Shape::Flat) => say(out, b"flat"),
        Ok(Shape::Linear) => say(out, b"linear"),
        Ok(Shape::Union) => say(out, b"union"),
        Err(refusal) => say_refused(out, refusal),
    }
}

/// Answers `union`, by the most lookups and links for one of its answers.
pub fn say_union(out: &mut BytesMut, outcome: Result<u64, Refusal>)
    requires room { REPLY_BYTES + LAST_LINE_BYTES ≤ out.old.spare }
    ensures kept { LAST_LINE_BYTES ≤ out.new.spare }
    ensures says { Says out.old out.new (union_reply outcome) }
{
    match outcome {
        Ok(most) => say_number(out, b"ok union ", most),
        Err(refusal) => say_refused(out, refusal),
    }
}

/// Answers `watch`, at a number of changes.
pub fn say_watched(out: &mut BytesMut, outcome: Result<(), Refusal>, seq: u64)
    requires room { REPLY_BYTES + LAST_LINE_BYTES ≤ out.old.spare }
    ensures kept { LAST_LINE_BYTES ≤ out.new.spare }
    ensures says { Says out.old out.new (watch_reply outcome seq) }
{
    match outcome {
        Ok(()) => say_number(out, b"ok watch ", seq),
        Err(refusal) => say_refused(out, refusal),
    }
}

/// Answers `batch`.
pub fn say_batch(out: &mut BytesMut, outcome: Result<(), Refusal>)
    requires room { REPLY_BYTES + LAST_LINE_BYTES ≤ out.old.spare }
    ensures kept { LAST_LINE_BYTES ≤ out.new.spare }
    ensures says { Says out.old out.new (ok_reply (codes "ok batch") outcome) }
{
    match outcome {
        Ok(()) => say(out, b"ok batch"),
        Err(refusal) => say_refused(out, refusal),
    }
}

/// Answers `add` and `del` in a batch, at a number of lines that it holds.
pub fn say_held(out: &mut BytesMut, outcome: Result<(), Refusal>, held: usize)
    requires room { REPLY_BYTES + LAST_LINE_BYTES ≤ out.old.spare }
    ensures kept { LAST_LINE_BYTES ≤ out.new.spare }
    ensures says { Says out.old out.new (held_reply outcome held) }
{
    match outcome {
        Ok(()) => say_number(out, b"ok held ", held as u64),
        Err(refusal) => say_refused(out, refusal),
    }
}

/// Answers `done` with how many rows were inserted and deleted, at a number of changes.
pub fn say_batch_done(out: &mut BytesMut, outcome: Result<usize, DoneRefusal>, seq: u64)
    requires room { REPLY_BYTES + LAST_LINE_BYTES ≤ out.old.spare }
    ensures kept { LAST_LINE_BYTES ≤ out.new.spare }
    ensures says { Says out.old out.new (done_reply outcome seq) }
{
    match outcome {
        Ok(rows) => say_two_numbers(out, b"ok done ", seq, rows as u64),
        Err(refusal) => say_refused(out, refusal_of_done(refusal)),
    }
}

/// Answers `next` on a stale cursor, by its name, the relation that changed and the number of the
/// change.
pub fn say_stale(out: &mut BytesMut, cursor: &Name, relation: &Name, seq: u64)
    requires room { REPLY_BYTES + LAST_LINE_BYTES ≤ out.old.spare }
    ensures kept { LAST_LINE_BYTES ≤ out.new.spare }
    ensures says { Says out.old out.new (stale_line cursor.now relation.now seq) }
{
    out.extend_reserved(b"stale ");
    out.extend_reserved(cursor.as_bytes());
    out.extend_reserved(b" ");
    out.extend_reserved(relation.as_bytes());
    say_number(out, b" ", seq);
}

/// Answers `quit` and `stop`.
pub fn say_bye(out: &mut BytesMut)
    requires room { length bye + LAST_LINE_BYTES ≤ out.old.spare }
    ensures kept { LAST_LINE_BYTES ≤ out.new.spare }
    ensures says { Says out.old out.new bye }
{
    say(out, b"bye");
}
