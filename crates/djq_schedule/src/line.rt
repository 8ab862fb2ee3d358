ghost use Rattle.std.specs.Prelude.{◌≡◌};
ghost use Rattle.std.specs.Option.{option_map};
ghost use Rattle.djq_model.specs.Parts.{before, behind};
ghost use Rattle.djq_schedule.specs.Schedule.{schedule_keyword_of, id_of, takes_text, order_of};

use memchr::memchr;

/// The first word of a schedule's line.
#[derive(Clone, Copy, Debug, PartialEq, Eq)]
pub enum Keyword {
    Open,
    Say,
    Part,
    Again,
    Free,
    End,
}

/// The greatest number of a session in a schedule.
const LAST_ID: u64 = 1_000_000;

/// The bytes before the first of these, or all, and the bytes after it, if there is one.
pub(crate) fn split_at(bytes: &[u8], sign: u8) -> (&[u8], Option<&[u8]>)
    ensures before { result.0.now ≡ before sign bytes.now }
    ensures behind { option_map (λ rest. rest.now) result.1 ≡ behind sign bytes.now }
{
    match memchr(sign, bytes) {
        Some(at) => (&bytes[..at], Some(&bytes[at + 1..])),
        None => (bytes, None),
    }
}

/// A line's keyword.
fn read_keyword(word: &[u8]) -> Option<Keyword>
    ensures { result ≡ schedule_keyword_of word.now }
{
    match word {
        b"open" => Some(Keyword::Open),
        b"say" => Some(Keyword::Say),
        b"part" => Some(Keyword::Part),
        b"again" => Some(Keyword::Again),
        b"free" => Some(Keyword::Free),
        b"end" => Some(Keyword::End),
        _ => None,
    }
}

/// Whether text may follow the number.
fn may_have_text(keyword: Keyword) -> bool
    ensures { result ≡ takes_text keyword }
{
    matches!(keyword, Keyword::Say | Keyword::Part)
}

/// The number of a session, from 1 to 1000000, without leading zeros.
fn read_id(digits: &[u8]) -> Option<u64>
    ensures { result ≡ id_of digits.now }
{
    if digits.is_empty() || digits[0] == b'0' {
        return None;
    }
    let mut id: u64 = 0;
    let mut rest = digits;
    'digits: while let Some((digit, behind)) = rest.split_first() {
        if *digit < b'0' || *digit > b'9' {
            return None;
        }
        id = id * 10 + u64::from(*digit - b'0');
        if id > LAST_ID {
            return None;
        }
        rest = behind;
    }
    Some(id)
}

/// A line's keyword, session and text, or `None` if it is none.
pub(crate) fn read_order(line: &[u8]) -> Option<(Keyword, u64, Option<&[u8]>)>
    ensures { option_map (λ o. (o.0, (o.1, option_map (λ text. text.now) o.2))) result ≡ order_of
        line.now }
{
    let (word, rest) = split_at(line, b' ');
    let keyword = read_keyword(word)?;
    let (digits, text) = split_at(rest?, b' ');
    let id = read_id(digits)?;
    if text.is_some() && !may_have_text(keyword) {
        return None;
    }
    Some((keyword, id, text))
}
