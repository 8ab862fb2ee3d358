//! What a line reports.
ghost use Rattle.std.specs.Prelude.{◌≡◌, IfOk, Some, drop, length};
ghost use Rattle.std.specs.Option.{option_map};
ghost use Rattle.djq_mirror.specs.Cells.{are_cells_in};
ghost use Rattle.djq_mirror.specs.Parts.{parts_left};
ghost use Rattle.djq_mirror.specs.Reading.{change_told, count_told, is_stale_told, lists};
ghost use Rattle.djq_mirror.specs.Reading.{news_by, told_if as told_if_of};
ghost use Rattle.djq_mirror.specs.Reading.{news_in, words_told, word_told};

use crate::cells::are_cells;
use crate::forms::{is_fixed, is_worded};
use crate::parts::{Parts, split_at};
use crate::words::is_number;
use djq_model::NoMem;
use djq_protocol::Sign;
use djq_value::{is_name, is_text};
use std::alloc::Global;

/// What a line reports of a listing or of a query.
#[derive(Clone, Copy, Debug)]
pub(crate) enum Told<'a> {
    // A cursor was opened.
    Opened,
    // An answer that is listed: its values, each after a space.
    Answer(&'a [u8]),
    // There is more of a listing.
    More,
    // No answer is left.
    Last,
    // A cursor is stale.
    Stale,
    // An answer of a query was added or removed.
    Changed(Sign, &'a [u8], &'a [u8]),
    // The number of a change of a query.
    Counted(&'a [u8]),
    // Nothing of either.
    Nothing,
}

/// What a line reports; none if and only if it is of no form.
pub(crate) fn read_line(alloc: Global, line: &[u8]) -> Result<Option<Told<'_>>, NoMem>
    ensures { IfOk result (λ told. option_map news_by told ≡ news_in line.now) }
{
    let (first, rest) = split_at(line, b' ');
    if is_text(first, b"=") {
        read_answer(alloc, &line[1..])
    } else if is_text(first, b"+") {
        read_change(alloc, Sign::Came, rest)
    } else if is_text(first, b"-") {
        read_change(alloc, Sign::Went, rest)
    } else {
        Ok(read_words(line, first, rest))
    }
}

/// An answer, by the bytes after its sign.
fn read_answer(alloc: Global, cells: &[u8]) -> Result<Option<Told<'_>>, NoMem>
    ensures { IfOk result (λ told.
        option_map news_by told ≡ told_if_of (are_cells_in cells.now) (lists cells.now)) }
{
    if are_cells(alloc, cells)? {
        Ok(Some(Told::Answer(cells)))
    } else {
        Ok(None)
    }
}

/// An answer that was added or removed, by the bytes after its sign and a space.
fn read_change<'a>(
    alloc: Global,
    sign: Sign,
    rest: Option<&'a [u8]>,
) -> Result<Option<Told<'a>>, NoMem>
    ensures { IfOk result (λ told.
        option_map news_by told ≡ change_told sign (option_map (λ b. b.now) rest.entry)) }
{
    let Some(rest) = rest else {
        return Ok(None);
    };
    let (query, _) = split_at(rest, b' ');
    if !is_name(query) {
        return Ok(None);
    }
    let cells = &rest[query.len()..];
    if are_cells(alloc, cells)? {
        Ok(Some(Told::Changed(sign, query, cells)))
    } else {
        Ok(None)
    }
}

/// A line of words alone, by its first word and the bytes after that.
fn read_words<'a>(line: &'a [u8], first: &'a [u8], rest: Option<&'a [u8]>) -> Option<Told<'a>>
    ensures { option_map news_by result ≡ words_told line.now first.now
        (parts_left 32 (option_map (λ b. b.now) rest.entry)) }
{
    if is_text(line, b"ok open") {
        Some(Told::Opened)
    } else if is_text(line, b"more") {
        Some(Told::More)
    } else if is_text(line, b"end") {
        Some(Told::Last)
    } else {
        read_word(line, first, &mut Parts::behind(rest, b' '))
    }
}

/// Such a line, if it isn't one of those.
fn read_word<'a>(line: &[u8], first: &[u8], words: &mut Parts<'a>) -> Option<Told<'a>>
    ensures { option_map news_by result ≡ word_told line.now first.now words.old }
{
    if is_text(first, b"at") {
        read_count(words)
    } else if is_text(first, b"stale") {
        told_if(is_stale(words), Told::Stale)
    } else {
        let fixed = is_fixed(line);
        let worded = is_worded(first, words);
        told_if(fixed || worded, Told::Nothing)
    }
}

/// What a line reports if it passes a test.
fn told_if<'a>(test: bool, told: Told<'a>) -> Option<Told<'a>>
    ensures { option_map news_by result ≡ told_if_of test (news_by told.entry) }
{
    if test { Some(told) } else { None }
}

/// The number of a change, by the words after `at`.
fn read_count<'a>(words: &mut Parts<'a>) -> Option<Told<'a>>
    ensures { option_map news_by result ≡ count_told words.old }
{
    let query = words.next()?;
    let number = words.next()?;
    let last = words.next().is_none();
    if last && is_name(query) && is_number(number) {
        Some(Told::Counted(query))
    } else {
        None
    }
}

/// Whether words are those after `stale`.
fn is_stale(words: &mut Parts<'_>) -> bool
    ensures { result ≡ is_stale_told words.old }
{
    let Some(cursor) = words.next() else {
        return false;
    };
    let Some(relation) = words.next() else {
        return false;
    };
    let Some(number) = words.next() else {
        return false;
    };
    let last = words.next().is_none();
    last && is_name(cursor) && is_name(relation) && is_number(number)
}
