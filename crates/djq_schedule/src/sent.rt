ghost use Rattle.std.specs.Prelude.{◌≡◌, ℕ, ◌==◌, ◌++◌, [], if◌then◌else◌, nat_eq, IfOk, OnOk};
ghost use Rattle.std.specs.HashMap.{get};
ghost use Rattle.std.specs.Option.{option_map_or};
ghost use Rattle.djq_schedule.specs.Sent.{session_line, ended_lines, begun_line, sent_text, outside_line};

use djq_io::Told;
use itoa::Buffer;
use std::alloc::{AllocError, Global};
use std::collections::HashMap;

/// The lines that these calls of a hub sent, by the bytes that were accepted, each after its session's number
/// and `< `, in the order in which their ends were sent.
///
/// # Errors
///
/// `AllocError` out of memory.
pub fn sent_text(alloc: Global, past: &[Told]) -> Result<Vec<u8>, AllocError>
    ensures { IfOk result (λ text. text.items ≡ sent_text past.now) }
{
    let mut text = Vec::new(alloc);
    let mut begun = HashMap::new(alloc);
    for told in past {
        if let Told::Sending(id, _, _, taken) = told {
            add_piece(alloc, &mut text, &mut begun, *id, taken.as_slice())?;
        }
    }
    Ok(text)
}

/// Appends the lines that end in a piece of a session to the text, and stores the bytes after
/// the last.
fn add_piece(
    alloc: Global,
    text: &mut Vec<u8>,
    begun: &mut HashMap<u64, Vec<u8>>,
    id: u64,
    piece: &[u8],
) -> Result<(), AllocError>
    ensures text { OnOk result (text.new.items ≡ text.old.items ++ ended_lines id
        (option_map_or (λ line. line.items) (get nat_eq begun.old id) []) piece.now) }
    ensures begun { OnOk result ((s : ℕ) → option_map_or (λ line. line.items)
        (get nat_eq begun.new s) [] ≡ if nat_eq id s
        then begun_line (option_map_or (λ line. line.items) (get nat_eq begun.old id) []) piece.now
        else option_map_or (λ line. line.items) (get nat_eq begun.old s) []) }
{
    let line = match begun.remove(&id) {
        Some(line) => line,
        None => Vec::new(alloc),
    };
    let line = end_lines(text, id, line, piece)?;
    begun.insert(id, line)?;
    Ok(())
}

/// Appends the lines that end in these bytes to the text, of which the first began before
/// them. Returns the bytes after the last.
fn end_lines(
    text: &mut Vec<u8>,
    id: u64,
    begun: Vec<u8>,
    bytes: &[u8],
) -> Result<Vec<u8>, AllocError>
    ensures rest { IfOk result (λ rest. rest.items ≡ begun_line begun.items bytes.now) }
    ensures text { IfOk result (λ _. text.new.items ≡ text.old.items ++ ended_lines id begun.items
        bytes.now) }
{
    let mut line = begun;
    for byte in bytes {
        if *byte == b'\n' {
            put_line(text, id, &line)?;
            line.clear();
        } else {
            line.push(*byte)?;
        }
    }
    Ok(line)
}

/// Appends a session's line to the text.
fn put_line(text: &mut Vec<u8>, id: u64, line: &[u8]) -> Result<(), AllocError>
    ensures { OnOk result (text.new.items ≡ text.old.items ++ session_line id line.now) }
{
    let mut digits = Buffer::new();
    text.extend_from_slice(digits.format(id).as_bytes())?;
    text.extend_from_slice(b"< ")?;
    text.extend_from_slice(line)?;
    text.push(b'\n')?;
    Ok(())
}

/// The line that reports which line of a schedule, counted from 1, is the first outside the grammar.
///
/// # Errors
///
/// `AllocError` out of memory.
pub fn outside_line(alloc: Global, number: u64) -> Result<Vec<u8>, AllocError>
    ensures { IfOk result (λ line. line.items ≡ outside_line number) }
{
    let mut digits = Buffer::new();
    let mut line = Vec::from_slice(alloc, b"schedule ")?;
    line.extend_from_slice(digits.format(number).as_bytes())?;
    line.push(b'\n')?;
    Ok(line)
}
