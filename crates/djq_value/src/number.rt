//! The number that a word is.
ghost use Rattle.std.specs.Prelude.{◌≡◌, ◌<◌, ◌≤◌, Some, length, pos, option_map};
ghost use Rattle.djq_value.specs.Literal.{integer_of, minus, natural_of};
ghost use Rattle.djq_value.specs.Number.{capped, number_from};
ghost use Rattle.djq_value.specs.Small.{AreDigitsAt, AreDigitsInFront, IsSmallAt, IsSmallInFront};

use crate::lexer::{may_end, space_count};

/// The largest number of digits with which every number is within 64 bits.
const FEW_DIGITS: usize = 18;

/// The reading of a word as an integer.
#[derive(Clone, Copy, Debug)]
pub(crate) enum Number {
    // No integer.
    Other,
    // An integer past 64 bits.
    Wide,
    // An integer of 64 bits.
    Small(i64),
}

/// The number that digits denote, or the greatest of 64 bits if it is above that; none if there is
/// another byte, or no byte at all.
pub fn read_natural(digits: &[u8]) -> Option<u64>
    ensures { result ≡ option_map capped (natural_of digits.now) }
{
    if digits.is_empty() {
        None
    } else if digits.len() <= FEW_DIGITS {
        read_short(digits)
    } else {
        read_long(digits)
    }
}

/// For so few digits: 18 can't exceed 64 bits.
fn read_short(digits: &[u8]) -> Option<u64>
    requires some { 0 < length digits.now }
    requires few { length digits.now ≤ 18 }
    ensures { result ≡ option_map capped (natural_of digits.now) }
{
    let mut value: u64 = 0;
    for digit in digits {
        if *digit < b'0' || *digit > b'9' {
            return None;
        }
        value = value * 10 + (*digit - b'0') as u64;
    }
    Some(value)
}

/// For any number of digits.
fn read_long(digits: &[u8]) -> Option<u64>
    requires { 0 < length digits.now }
    ensures { result ≡ option_map capped (natural_of digits.now) }
{
    let mut value: u64 = 0;
    for digit in digits {
        if *digit < b'0' || *digit > b'9' {
            return None;
        }
        value = value
            .saturating_mul(10)
            .saturating_add((*digit - b'0') as u64);
    }
    Some(value)
}

/// An optional `-`, then digits.
pub(crate) fn read_integer(word: &[u8]) -> Number
    ensures { result ≡ number_from (integer_of word.now) }
{
    if !word.is_empty() && word[0] == b'-' {
        match read_natural(&word[1..]) {
            Some(size) => negative(size),
            None => Number::Other,
        }
    } else {
        match read_natural(word) {
            Some(size) => positive(size),
            None => Number::Other,
        }
    }
}

/// The integer of this size, if it is within 64 bits.
fn positive(size: u64) -> Number
    ensures { result ≡ number_from (Some (pos size)) }
{
    match i64::try_from(size) {
        Ok(value) => Number::Small(value),
        Err(_) => Number::Wide,
    }
}

/// The integer below zero of this size, if it is within 64 bits.
fn negative(size: u64) -> Number
    ensures { result ≡ number_from (Some (minus size)) }
{
    if size <= i64::MAX as u64 {
        Number::Small(-(size as i64))
    } else if size == 1 << 63 {
        Number::Small(i64::MIN)
    } else {
        Number::Wide
    }
}

/// The integer of few digits at the front, after spaces, and the number of bytes of both. Most
/// often there is one space, and no sign.
#[inline(always)]
pub(crate) fn small_front(bytes: &[u8]) -> Option<(i64, usize)>
    ensures { IsSmallInFront bytes.now result }
{
    match spaced_digits(bytes) {
        Some((size, len)) => Some((size as i64, len)),
        None => small_behind(bytes),
    }
}

/// The number of few digits at the front, after one space, and the number of bytes of both.
#[inline]
fn spaced_digits(bytes: &[u8]) -> Option<(u64, usize)>
    ensures { AreDigitsInFront bytes.now result }
{
    if bytes.is_empty() || bytes[0] != b' ' {
        return None;
    }
    match digits_at(&bytes[1..]) {
        Some((size, len)) => Some((size, len + 1)),
        None => None,
    }
}

/// The integer at the front, however many spaces there are, and with a sign or without.
#[inline(never)]
fn small_behind(bytes: &[u8]) -> Option<(i64, usize)>
    ensures { IsSmallInFront bytes.now result }
{
    let spaces = space_count(bytes);
    match small_at(&bytes[spaces..]) {
        Some((value, len)) => Some((value, spaces + len)),
        None => None,
    }
}

/// The integer of few digits at the front of bytes, and the number of its bytes. It can't exceed 64
/// bits; if none is returned, there may be another one.
#[inline]
fn small_at(bytes: &[u8]) -> Option<(i64, usize)>
    ensures { IsSmallAt bytes.now result }
{
    if !bytes.is_empty() && bytes[0] == b'-' {
        match digits_at(&bytes[1..]) {
            Some((size, len)) => Some((negated(size), len + 1)),
            None => None,
        }
    } else {
        match digits_at(bytes) {
            Some((size, len)) => Some((size as i64, len)),
            None => None,
        }
    }
}

/// The integer below zero of a size within 64 bits.
#[inline]
fn negated(size: u64) -> i64
    requires { size ≤ 9223372036854775807 }
    ensures { result ≡ minus size }
{
    -(size as i64)
}

/// The number of the few digits at the front of bytes, up to a place at which a word may end, and
/// how many they are.
#[inline]
fn digits_at(bytes: &[u8]) -> Option<(u64, usize)>
    ensures { AreDigitsAt bytes.now result }
{
    let mut size: u64 = 0;
    let mut len = 0;
    'digits: while len < bytes.len()
        && len < FEW_DIGITS
        && bytes[len] >= b'0'
        && bytes[len] <= b'9'
    {
        size = size * 10 + (bytes[len] - b'0') as u64;
        len += 1;
    }
    if len > 0 && may_end(&bytes[len..]) {
        Some((size, len))
    } else {
        None
    }
}
