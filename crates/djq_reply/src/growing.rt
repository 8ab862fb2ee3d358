//! The lines of listings and changes, which are of any length.
//!
//! A line of values is written into all the room that there is, which is claimed once; unused room
//! is released. If the room may be too small, the line is printed piece by piece, and each piece
//! reserves its own. If memory runs out, its pieces are removed, once for the whole line.
ghost use Rattle.std.specs.Prelude.{◌≡◌, ◌≤◌, ◌++◌, codes, length};
ghost use Rattle.djq_protocol.specs.Reply.{answer_line, at_line, cells_text, change_line, last_line};
ghost use Rattle.djq_protocol.specs.Reply.{line};
ghost use Rattle.djq_protocol.specs.Reply.{member_line, sign_text as sign_text_of};
ghost use Rattle.djq_reply.specs.Adding.{AppendsPart};
ghost use Rattle.djq_reply.specs.Taking.{RoomIsTaken};
ghost use Rattle.djq_value.specs.Output.{Puts};
ghost use Rattle.djq_value.specs.Writing.{Writes};
ghost use Rattle.djq_value.specs.declared.output.TheConstants.{KEPT};

use bytes::BytesMut;
use djq_model::{Answered, Name, NoMem};
use djq_protocol::Sign;
use djq_value::{
    KEPT, digit_count, extend_digits, print_cell, put, write_byte, write_bytes, write_cell,
};

/// Appends an answer that `next` lists.
///
/// # Errors
///
/// `NoMem` is returned only if the room is too small and can't grow; the output is then as before.
#[tactic(auto, using(crate::proofs::Printing::line_put, crate::proofs::Printing::none_put, crate::proofs::Printing::puts_alike))]
pub fn put_answer<A: Answered>(answer: &A, out: &mut BytesMut) -> Result<(), NoMem>
    ensures { Puts out.old out.new (answer_line (A.values answer.now)) result }
{
    let start = take_room(out);
    match write_answer(answer, out.as_mut_slice(), start) {
        Some(end) => {
            out.truncate(end);
            Ok(())
        }
        None => {
            out.truncate(start);
            put_answer_by_pieces(answer, out)
        }
    }
}

/// An answer, from a place on.
fn write_answer<A: Answered>(answer: &A, bytes: &mut [u8], at: usize) -> Option<usize>
    requires { at ≤ length bytes.old }
    ensures { Writes bytes.old bytes.new at (answer_line (A.values answer.now)) result }
{
    if at == bytes.len() {
        return None;
    }
    let front = write_byte(b'=', bytes, at);
    write_values(answer, bytes, front)
}

/// An answer, if the room for it may be too small.
#[inline(never)]
fn put_answer_by_pieces<A: Answered>(answer: &A, out: &mut BytesMut) -> Result<(), NoMem>
    ensures { Puts out.old out.new (answer_line (A.values answer.now)) result }
{
    let start = out.len();
    let outcome = add_answer(answer, out);
    if outcome.is_err() {
        out.truncate(start);
    }
    outcome
}

/// An answer's line value by value, each reserving its own room.
fn add_answer<A: Answered>(answer: &A, out: &mut BytesMut) -> Result<(), NoMem>
    ensures { AppendsPart out.old out.new (answer_line (A.values answer.now)) result }
{
    put(out, b"=")?;
    add_cells(answer, out)?;
    put(out, b"\n")
}

/// Appends an answer that a change inserted or deleted, as a watch reports it.
///
/// # Errors
///
/// `NoMem` is returned only if the room is too small and can't grow; the output is then as before.
#[tactic(auto, using(crate::proofs::Printing::line_put, crate::proofs::Printing::none_put, crate::proofs::Printing::puts_alike))]
pub fn put_change<A: Answered>(
    sign: Sign,
    query: &Name,
    answer: &A,
    out: &mut BytesMut,
) -> Result<(), NoMem>
    ensures { Puts out.old out.new (change_line sign query.now (A.values answer.now)) result }
{
    let start = take_room(out);
    match write_change(sign, query.as_bytes(), answer, out.as_mut_slice(), start) {
        Some(end) => {
            out.truncate(end);
            Ok(())
        }
        None => {
            out.truncate(start);
            put_change_by_pieces(sign, query, answer, out)
        }
    }
}

/// An answer that was inserted or deleted, from a place on.
fn write_change<A: Answered>(
    sign: Sign,
    query: &[u8],
    answer: &A,
    bytes: &mut [u8],
    at: usize,
) -> Option<usize>
    requires { at ≤ length bytes.old }
    ensures { Writes bytes.old bytes.new at (change_line sign query.now (A.values answer.now)) result }
{
    let room = bytes.len() - at;
    if room < 2 || room - 2 < query.len() {
        return None;
    }
    let name = write_bytes(sign_text(sign), bytes, at);
    let front = write_bytes(query, bytes, name);
    write_values(answer, bytes, front)
}

/// An answer that was inserted or deleted, if the room for it may be too small.
#[inline(never)]
fn put_change_by_pieces<A: Answered>(
    sign: Sign,
    query: &Name,
    answer: &A,
    out: &mut BytesMut,
) -> Result<(), NoMem>
    ensures { Puts out.old out.new (change_line sign query.now (A.values answer.now)) result }
{
    let start = out.len();
    let outcome = add_change(sign, query, answer, out);
    if outcome.is_err() {
        out.truncate(start);
    }
    outcome
}

/// A change's line value by value, each reserving its own room.
fn add_change<A: Answered>(
    sign: Sign,
    query: &Name,
    answer: &A,
    out: &mut BytesMut,
) -> Result<(), NoMem>
    ensures { AppendsPart out.old out.new (change_line sign query.now (A.values answer.now)) result }
{
    add_front(sign, query.as_bytes(), out)?;
    add_cells(answer, out)?;
    put(out, b"\n")
}

/// The text before the values.
fn add_front(sign: Sign, query: &[u8], out: &mut BytesMut) -> Result<(), NoMem>
    ensures { Puts out.old out.new (sign_text_of sign ++ query.now) result }
{
    out.reserve(query.len() + 2 + KEPT)?;
    out.extend_reserved(sign_text(sign));
    out.extend_reserved(query);
    Ok(())
}

/// The sign before an answer that was inserted or deleted, with its space.
fn sign_text(sign: Sign) -> &'static [u8]
    ensures { result.now ≡ sign_text_of sign }
{
    match sign {
        Sign::Came => b"+ ",
        Sign::Went => b"- ",
    }
}

/// Appends the line after the answers that a change inserted or deleted: the query, and the number
/// of the change.
///
/// # Errors
///
/// `NoMem` is returned only if the room is too small and can't grow; the output is then as before.
pub fn put_at(query: &Name, seq: u64, out: &mut BytesMut) -> Result<(), NoMem>
    ensures { Puts out.old out.new (at_line query.now seq) result }
{
    let name = query.as_bytes();
    let count = digit_count(seq);
    out.reserve(name.len() + count + 5 + KEPT)?;
    out.extend_reserved(b"at ");
    out.extend_reserved(name);
    out.extend_reserved(b" ");
    extend_digits(seq, count, out);
    out.extend_reserved(b"\n");
    Ok(())
}

/// Appends the lines that explain the tree of a query, each with its line end, and `end` after
/// them.
///
/// # Errors
///
/// `NoMem` is returned only if the room is too small and can't grow; the output is then as before.
pub fn put_explained(lines: &[u8], out: &mut BytesMut) -> Result<(), NoMem>
    ensures { Puts out.old out.new (lines.now ++ codes "end\n") result }
{
    out.reserve(lines.len() + 4 + KEPT)?;
    out.extend_reserved(lines);
    out.extend_reserved(b"end\n");
    Ok(())
}

/// Appends the line that explains one member of a union.
///
/// # Errors
///
/// `NoMem` is returned only if the room is too small and can't grow; the output is then as before.
pub fn put_member(name: &Name, out: &mut BytesMut) -> Result<(), NoMem>
    ensures { Puts out.old out.new (member_line name.now) result }
{
    let name = name.as_bytes();
    out.reserve(name.len() + 3 + KEPT)?;
    out.extend_reserved(b"m ");
    out.extend_reserved(name);
    out.extend_reserved(b"\n");
    Ok(())
}

/// Appends the last line of a listing, or of what explains a union.
///
/// # Errors
///
/// `NoMem` is returned only if the room is too small and can't grow; the output is then as before.
pub fn put_last(is_end: bool, out: &mut BytesMut) -> Result<(), NoMem>
    ensures { Puts out.old out.new (last_line is_end) result }
{
    if is_end {
        put(out, b"end\n")
    } else {
        put(out, b"more\n")
    }
}

/// Values, each after a space.
fn add_cells<A: Answered>(answer: &A, out: &mut BytesMut) -> Result<(), NoMem>
    requires { KEPT ≤ out.old.spare }
    ensures { AppendsPart out.old out.new (cells_text (A.values answer.now)) result }
{
    for at in 0..answer.len() {
        print_cell(answer.value(at), out)?;
    }
    Ok(())
}

/// Claims all the room but the bytes that remain after the queued ones, and returns the place at
/// which it begins.
fn take_room(out: &mut BytesMut) -> usize
    ensures { RoomIsTaken out.old out.new result }
{
    let start = out.len();
    out.advance_mut((out.capacity() - start).saturating_sub(KEPT));
    start
}

/// Values, each after a space, and the line's end, from a place on.
fn write_values<A: Answered>(answer: &A, bytes: &mut [u8], at: usize) -> Option<usize>
    requires { at ≤ length bytes.old }
    ensures { Writes bytes.old bytes.new at (line (cells_text (A.values answer.now))) result }
{
    let mut end = at;
    for place in 0..answer.len() {
        let Some(behind) = write_cell(answer.value(place), bytes, end) else {
            return None;
        };
        end = behind;
    }
    if end == bytes.len() {
        return None;
    }
    Some(write_byte(b'\n', bytes, end))
}
