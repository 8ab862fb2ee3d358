//! Values as they are printed, each after a space.
//!
//! A piece is read as a literal and printed again: it is a value if and only if the two are
//! the same.
ghost use Rattle.std.specs.Prelude.{◌≡◌, ◌<◌, ◌&&◌, IfOk, length};
ghost use Rattle.std.specs.Fmt.{signed_decimal};
ghost use Rattle.std.specs.Option.{option_map};
ghost use Rattle.std.specs.Str.{is_utf8 as is_utf8_of};
ghost use Rattle.djq_model.specs.Data.{bytes_eq};
ghost use Rattle.djq_value.specs.ReadValue.{literal_at};
ghost use Rattle.djq_value.specs.ValueText.{quoted, value_text};
ghost use Rattle.djq_mirror.specs.Cells.{are_cells_in, behind_cell as behind_cell_of};
ghost use Rattle.djq_mirror.specs.Cells.{behind_value as behind_value_of};
ghost use Rattle.djq_mirror.specs.Replies.{is_text};

use bytes::BytesMut;
use djq_model::{NoMem, Value, ValueRef};
use djq_value::{ValueRefusal, print_cell, read_value};
use itoa::Buffer;
use std::alloc::Global;

/// Whether bytes are values, each after a space.
#[tactic(auto, using(crate::proofs::Spellings::cells_behind, crate::proofs::Spellings::cells_fail, crate::proofs::Spellings::cells_empty, crate::proofs::Spellings::cell_shorter))]
pub(crate) fn are_cells(alloc: Global, bytes: &[u8]) -> Result<bool, NoMem>
    ensures { IfOk result (λ yes. yes ≡ are_cells_in bytes.now) }
{
    let mut rest = bytes;
    'cells: while !rest.is_empty() {
        match behind_cell(alloc, rest)? {
            Some(behind) => rest = behind,
            None => return Ok(false),
        }
    }
    Ok(true)
}

/// The bytes after a space and a value, if these bytes begin with the two.
fn behind_cell(alloc: Global, bytes: &[u8]) -> Result<Option<&[u8]>, NoMem>
    requires { 0 < length bytes.now }
    ensures { IfOk result (λ found. option_map (λ b. b.now) found ≡ behind_cell_of bytes.now) }
{
    if bytes[0] == b' ' {
        behind_value(alloc, &bytes[1..])
    } else {
        Ok(None)
    }
}

/// The bytes after a value, if these bytes begin with one.
fn behind_value(alloc: Global, bytes: &[u8]) -> Result<Option<&[u8]>, NoMem>
    ensures { IfOk result (λ found.
        option_map (λ b. b.now) found ≡ behind_value_of bytes.now (literal_at bytes.now)) }
{
    match read_value(alloc, bytes) {
        Ok((value, len)) => {
            if is_printed(alloc, &value, &bytes[..len])? {
                Ok(Some(&bytes[len..]))
            } else {
                Ok(None)
            }
        }
        Err(ValueRefusal::NoMem) => Err(NoMem),
        Err(_) => Ok(None),
    }
}

/// Whether a piece is a value as it is printed.
fn is_printed(alloc: Global, value: &Value, piece: &[u8]) -> Result<bool, NoMem>
    ensures { IfOk result (λ yes.
        yes ≡ (is_text value.now && bytes_eq (value_text value.now) piece.now)) }
{
    match value {
        Value::Int(number) => Ok(is_integer(*number, piece)),
        Value::Text(text) => is_quoted(alloc, text.as_bytes(), piece),
    }
}

/// Whether a piece of a line is this integer as it is printed.
fn is_integer(number: i64, piece: &[u8]) -> bool
    ensures { result ≡ bytes_eq (signed_decimal number) piece.now }
{
    let mut buffer = Buffer::new();
    buffer.format(number).as_bytes() == piece
}

/// Whether a piece of a line is this text as it is printed.
fn is_quoted(alloc: Global, text: &[u8], piece: &[u8]) -> Result<bool, NoMem>
    ensures { IfOk result (λ yes. yes ≡ (is_utf8_of text.now && bytes_eq (quoted text.now) piece.now)) }
{
    if !is_utf8(text) {
        return Ok(false);
    }
    let mut printed = BytesMut::new(alloc);
    print_cell(ValueRef::Text(text), &mut printed)?;
    Ok(&printed.as_slice()[1..] == piece)
}

/// Whether bytes are UTF-8.
fn is_utf8(bytes: &[u8]) -> bool
    ensures { result ≡ is_utf8_of bytes.now }
{
    str::from_utf8(bytes).is_ok()
}
