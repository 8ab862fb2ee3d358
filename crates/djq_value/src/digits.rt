//! The digits of a number, written in place.
ghost use Rattle.std.specs.Prelude.{◌≡◌, ◌<◌, ◌≤◌, length};
ghost use Rattle.std.specs.Fmt.{decimal};
ghost use Rattle.djq_value.specs.Output.{Says};

use bytes::BytesMut;
use itoa::write_digits;

/// How many digits a number has.
#[inline]
pub fn digit_count(number: u64) -> usize
    ensures value { result ≡ length (decimal number) }
    ensures few { result ≤ 20 }
{
    if number < 100_000_000 {
        middle_count(number)
    } else {
        long_count(number)
    }
}

/// By one division for each four digits.
fn long_count(number: u64) -> usize
    ensures value { result ≡ length (decimal number) }
    ensures few { result ≤ 20 }
{
    let mut left = number;
    let mut count = 0;
    while left >= 10_000 {
        left /= 10_000;
        count += 4;
    }
    count + short_count(left)
}

/// Of a number of at most eight digits, without a division.
#[inline]
#[tactic(auto, using(crate::proofs::Texts::length_five, crate::proofs::Texts::length_six, crate::proofs::Texts::length_seven, crate::proofs::Texts::length_eight))]
fn middle_count(number: u64) -> usize
    requires { number < 100000000 }
    ensures value { result ≡ length (decimal number) }
    ensures few { result ≤ 8 }
{
    if number < 10_000 {
        short_count(number)
    } else if number < 1_000_000 {
        if number < 100_000 { 5 } else { 6 }
    } else if number < 10_000_000 {
        7
    } else {
        8
    }
}

/// How many digits a number below 10,000 has.
fn short_count(number: u64) -> usize
    requires { number < 10000 }
    ensures value { result ≡ length (decimal number) }
    ensures few { result ≤ 4 }
{
    if number < 100 {
        if number < 10 { 1 } else { 2 }
    } else if number < 1000 {
        3
    } else {
        4
    }
}

/// Appends the digits of a number, of which there are so many, in the present room.
#[inline]
pub fn extend_digits(number: u64, count: usize, out: &mut BytesMut)
    requires count { count ≡ length (decimal number) }
    requires room { count ≤ out.old.spare }
    ensures { Says out.old out.new (decimal number) }
{
    out.advance_mut(count);
    let end = out.len();
    let _start = write_digits(number, out.as_mut_slice(), end);
}
