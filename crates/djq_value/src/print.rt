ghost use Rattle.std.specs.Prelude.{◌≡◌, ◌*◌, ◌∷◌, ◌≤◌, count_by, length};
ghost use Rattle.std.specs.Fmt.{signed_decimal};
ghost use Rattle.std.specs.List.{flat_map};
ghost use Rattle.djq_model.specs.ValueRef.{value_lent};
ghost use Rattle.djq_value.specs.Output.{Puts, Says};
ghost use Rattle.djq_value.specs.ValueText.{escaped, is_escaped as is_escaped_of, quoted};
ghost use Rattle.djq_value.specs.ValueText.{value_text};

use crate::digits::{digit_count, extend_digits};
use crate::output::KEPT;
use bytes::BytesMut;
use djq_model::{NoMem, ValueRef};

/// Appends a space and a value as it is printed: an integer in decimal, a text in quotes with its
/// escapes.
///
/// # Errors
///
/// `NoMem` is returned only if the room is too small and can't grow; the output is then as before.
pub fn print_cell(value: ValueRef<'_>, out: &mut BytesMut) -> Result<(), NoMem>
    ensures { Puts out.old out.new (32 ∷ value_text (value_lent value.entry)) result }
{
    match value {
        ValueRef::Int(number) => print_integer(number, out),
        ValueRef::Text(text) => print_text(text, out),
    }
}

/// A space and an integer.
fn print_integer(number: i64, out: &mut BytesMut) -> Result<(), NoMem>
    ensures { Puts out.old out.new (32 ∷ signed_decimal number) result }
{
    let size = number.unsigned_abs();
    let count = digit_count(size);
    if number < 0 {
        out.reserve(count + 2 + KEPT)?;
        out.extend_reserved(b" -");
    } else {
        out.reserve(count + 1 + KEPT)?;
        out.extend_reserved(b" ");
    }
    extend_digits(size, count, out);
    Ok(())
}

/// A space and a text in quotes. Room for the whole of it is allocated at once.
fn print_text(text: &[u8], out: &mut BytesMut) -> Result<(), NoMem>
    ensures { Puts out.old out.new (32 ∷ quoted text.now) result }
{
    // no output has room for more bytes than can be counted
    let _most = out.capacity();
    let len = escaped_len(text);
    let Some(room) = len.checked_add(3 + KEPT) else {
        return Err(NoMem);
    };
    out.reserve(room)?;
    out.extend_reserved(b" \"");
    extend_escaped(text, len, out);
    out.extend_reserved(b"\"");
    Ok(())
}

/// The number of bytes of a text with its escapes.
fn escaped_len(text: &[u8]) -> usize
    ensures { result ≡ length (flat_map escaped text.now) }
{
    text.len() + escape_count(text)
}

/// How many bytes of a text need an escape.
fn escape_count(text: &[u8]) -> usize
    ensures value { result ≡ count_by is_escaped_of text.now }
    ensures few { result ≤ length text.now }
{
    text.iter().filter(|b| is_escaped(**b)).count()
}

/// Whether a byte of a text needs an escape. Small letters are above all that do.
#[tactic(auto, using(crate::proofs::Texts::plain_above))]
pub(crate) fn is_escaped(byte: u8) -> bool
    ensures { result ≡ is_escaped_of byte }
{
    byte <= b'\\' && ((byte == b'"') | (byte == b'\\') | (byte == b'\n'))
}

/// The bytes of a text with their escapes, in one piece if there are no escapes.
fn extend_escaped(text: &[u8], len: usize, out: &mut BytesMut)
    requires len { len ≡ length (flat_map escaped text.now) }
    requires room { len ≤ out.old.spare }
    ensures { Says out.old out.new (flat_map escaped text.now) }
{
    if len == text.len() {
        out.extend_reserved(text);
    } else {
        extend_bytes(text, out);
    }
}

/// The bytes of a text with their escapes, one by one.
fn extend_bytes(text: &[u8], out: &mut BytesMut)
    requires { length (flat_map escaped text.now) ≤ out.old.spare }
    ensures { Says out.old out.new (flat_map escaped text.now) }
{
    for byte in text {
        extend_byte(*byte, out);
    }
}

/// The form of a byte in a text that is printed.
fn extend_byte(byte: u8, out: &mut BytesMut)
    requires { length (escaped byte) ≤ out.old.spare }
    ensures { Says out.old out.new (escaped byte) }
{
    match byte {
        b'"' => out.extend_reserved(b"\\\""),
        b'\\' => out.extend_reserved(b"\\\\"),
        b'\n' => out.extend_reserved(b"\\n"),
        other => out.extend_reserved(&[other]),
    }
}
