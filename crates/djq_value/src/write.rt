//! Values written into existing bytes, from a place on.
ghost use Rattle.std.specs.Prelude.{◌≡◌, ◌+◌, ◌*◌, ◌∷◌, [], ◌<◌, ◌≤◌, IsTrue, length};
ghost use Rattle.std.specs.Fmt.{decimal, signed_decimal};
ghost use Rattle.std.specs.List.{flat_map};
ghost use Rattle.djq_model.specs.ValueRef.{value_lent};
ghost use Rattle.djq_value.specs.ValueText.{escaped, quoted, value_text};
ghost use Rattle.djq_value.specs.Writing.{Writes, Written};

use crate::digits::digit_count;
use crate::print::is_escaped;
use djq_model::ValueRef;
use itoa::write_digits;

/// The maximum length of a space and an integer, with a sign and 20 digits.
const INTEGER_ROOM: usize = 22;

/// Writes a space and a value, as [`print_cell`](crate::print_cell) prints it, and returns the
/// place of its end; none if there may be too little room for it.
#[inline]
pub fn write_cell(value: ValueRef<'_>, bytes: &mut [u8], at: usize) -> Option<usize>
    requires { at ≤ length bytes.old }
    ensures { Writes bytes.old bytes.new at (32 ∷ value_text (value_lent value.entry)) result }
{
    match value {
        ValueRef::Int(number) => write_integer(number, bytes, at),
        ValueRef::Text(text) => write_text(text, bytes, at),
    }
}

/// A space and an integer.
#[inline]
fn write_integer(number: i64, bytes: &mut [u8], at: usize) -> Option<usize>
    requires { at ≤ length bytes.old }
    ensures { Writes bytes.old bytes.new at (32 ∷ signed_decimal number) result }
{
    if bytes.len() - at < INTEGER_ROOM {
        return None;
    }
    let front = write_byte(b' ', bytes, at);
    Some(write_signed(number, bytes, front))
}

/// An integer.
#[inline]
fn write_signed(number: i64, bytes: &mut [u8], at: usize) -> usize
    requires { at + 21 ≤ length bytes.old }
    ensures { Written bytes.old bytes.new at (signed_decimal number) result }
{
    let size = number.unsigned_abs();
    if number < 0 {
        let front = write_byte(b'-', bytes, at);
        write_natural(size, bytes, front)
    } else {
        write_natural(size, bytes, at)
    }
}

/// A number without a sign. The branch that is followed determines how many digits a short one has,
/// so that each is written without another test.
#[inline]
fn write_natural(number: u64, bytes: &mut [u8], at: usize) -> usize
    requires { at + 20 ≤ length bytes.old }
    ensures { Written bytes.old bytes.new at (decimal number) result }
{
    if number < 10_000 {
        write_short(number, bytes, at)
    } else {
        write_long(number, bytes, at)
    }
}

/// One below 10,000.
#[inline]
fn write_short(number: u64, bytes: &mut [u8], at: usize) -> usize
    requires short { number < 10000 }
    requires room { at + 20 ≤ length bytes.old }
    ensures { Written bytes.old bytes.new at (decimal number) result }
{
    if number < 100 {
        if number < 10 {
            write_counted(number, 1, bytes, at)
        } else {
            write_counted(number, 2, bytes, at)
        }
    } else if number < 1000 {
        write_counted(number, 3, bytes, at)
    } else {
        write_counted(number, 4, bytes, at)
    }
}

/// One whose digits are counted first.
#[inline(never)]
fn write_long(number: u64, bytes: &mut [u8], at: usize) -> usize
    requires { at + 20 ≤ length bytes.old }
    ensures { Written bytes.old bytes.new at (decimal number) result }
{
    write_counted(number, digit_count(number), bytes, at)
}

/// One of so many digits.
#[inline]
fn write_counted(number: u64, count: usize, bytes: &mut [u8], at: usize) -> usize
    requires count { count ≡ length (decimal number) }
    requires room { at + count ≤ length bytes.old }
    ensures { Written bytes.old bytes.new at (decimal number) result }
{
    let end = at + count;
    let _start = write_digits(number, bytes, end);
    end
}

/// A space and a text in quotes; none if there is too little room for an escape of each byte.
#[inline]
fn write_text(text: &[u8], bytes: &mut [u8], at: usize) -> Option<usize>
    requires { at ≤ length bytes.old }
    ensures { Writes bytes.old bytes.new at (32 ∷ quoted text.now) result }
{
    let room = bytes.len() - at;
    if room < 3 || (room - 3) / 2 < text.len() {
        return None;
    }
    let front = write_byte(b' ', bytes, at);
    let open = write_byte(b'"', bytes, front);
    let close = write_escaped(text, bytes, open);
    Some(write_byte(b'"', bytes, close))
}

/// The bytes of a text with their escapes, in one piece if there are no escapes.
#[inline]
fn write_escaped(text: &[u8], bytes: &mut [u8], at: usize) -> usize
    requires { at + 2 * length text.now ≤ length bytes.old }
    ensures few { result ≤ at + 2 * length text.now }
    ensures written { Written bytes.old bytes.new at (flat_map escaped text.now) result }
{
    if is_plain(text) {
        write_bytes(text, bytes, at)
    } else {
        write_each(text, bytes, at)
    }
}

/// The bytes of a text with their escapes, one by one.
#[inline(never)]
fn write_each(text: &[u8], bytes: &mut [u8], at: usize) -> usize
    requires { at + 2 * length text.now ≤ length bytes.old }
    ensures few { result ≤ at + 2 * length text.now }
    ensures written { Written bytes.old bytes.new at (flat_map escaped text.now) result }
{
    let mut end = at;
    for byte in text {
        end = write_escape(*byte, bytes, end);
    }
    end
}

/// The form of a byte in a text that is printed.
#[inline]
fn write_escape(byte: u8, bytes: &mut [u8], at: usize) -> usize
    requires { at + 2 ≤ length bytes.old }
    ensures few { result ≤ at + 2 }
    ensures written { Written bytes.old bytes.new at (escaped byte) result }
{
    match byte {
        b'"' => write_bytes(b"\\\"", bytes, at),
        b'\\' => write_bytes(b"\\\\", bytes, at),
        b'\n' => write_bytes(b"\\n", bytes, at),
        other => write_byte(other, bytes, at),
    }
}

/// Whether no byte of a text needs an escape.
#[inline]
fn is_plain(text: &[u8]) -> bool
    ensures { IsTrue result → flat_map escaped text.now ≡ text.now }
{
    for byte in text {
        if is_escaped(*byte) {
            return false;
        }
    }
    true
}

/// Writes a byte, and returns the place after it.
#[inline]
pub fn write_byte(byte: u8, bytes: &mut [u8], at: usize) -> usize
    requires { at < length bytes.old }
    ensures { Written bytes.old bytes.new at (byte ∷ []) result }
{
    bytes[at] = byte;
    at + 1
}

/// Writes bytes, and returns the place after them.
#[inline]
pub fn write_bytes(piece: &[u8], bytes: &mut [u8], at: usize) -> usize
    requires { at + length piece.now ≤ length bytes.old }
    ensures { Written bytes.old bytes.new at piece.now result }
{
    let end = at + piece.len();
    bytes[at..end].copy_from_slice(piece);
    end
}
