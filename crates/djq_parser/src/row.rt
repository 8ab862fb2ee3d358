//! Lines of a row, read into room that the caller owns.
ghost use Rattle.std.specs.Prelude.{◌≡◌, ◌≤◌, ◌++◌, ◌∷◌, [], Some, length, take, true};
ghost use Rattle.std.specs.List.{list_all};
ghost use Rattle.djq_model.specs.Data.{Tuple};
ghost use Rattle.djq_model.specs.declared.value.Value.{Value as Datum};
ghost use Rattle.djq_value.specs.Literal.{is_small_value, literal_of};
ghost use Rattle.djq_value.specs.Token.{tokens};
ghost use Rattle.djq_protocol.specs.Grammar.{all_of};
ghost use Rattle.djq_parser.specs.Reading.{ReadsAs, onto};
ghost use Rattle.djq_parser.specs.RowReading.{BeginsRow, IsCloseRowWord, IsRefused, ReadsNumbers};
ghost use Rattle.djq_parser.specs.RowReading.{ReadsOthers, ReadsRow, RefusesOn, TakesNameInFront};
ghost use Rattle.djq_parser.specs.RowReading.{TakesRowWord, may_begin, named_in, named_read};
ghost use Rattle.djq_parser.specs.RowReading.{values_read};
ghost use Rattle.djq_parser.specs.declared.row.RowWord.{RowWord as Verb};

use crate::command::is_utf8;
use crate::item::Item;
use crate::items::is_outside;
use crate::refusal::LineRefusal;
use djq_model::Value;
use djq_value::{Lexer, is_name, is_text, next_word};
use std::alloc::Global;

/// The number of bytes of a row's keyword, with the space after it.
const WORD_BYTES: usize = 4;

/// What a line is to a caller that reads rows. A name is bytes of the line.
#[derive(Clone, Copy, Debug)]
pub enum RowLine<'a> {
    /// The row that was read is to be added to the relation of this name.
    Add(&'a [u8]),
    /// A copy of it is to be deleted from that.
    Del(&'a [u8]),
    /// The line begins as one that does this with a row, and denotes none.
    Refused(RowWord, LineRefusal),
    /// It doesn't.
    Other,
}

/// What a command does with a row.
#[derive(Clone, Copy, Debug)]
pub enum RowWord {
    /// It adds it.
    Add,
    /// It deletes a copy of it.
    Del,
}

/// The reading of a line of a row, whose values replace those in `row`. Of any other line nothing
/// is read, and they are unchanged.
pub fn read_row<'a>(alloc: Global, line: &'a [u8], row: &mut Vec<Value>) -> RowLine<'a>
    ensures { ReadsRow line.now result row.old.items row.new.items }
{
    let Some((verb, lexer)) = begin_row(line) else {
        return RowLine::Other;
    };
    match read_named(alloc, line, lexer, row) {
        Ok(name) => match verb {
            RowWord::Add => RowLine::Add(name),
            RowWord::Del => RowLine::Del(name),
        },
        Err(refusal) => RowLine::Refused(verb, refusal),
    }
}

/// What the next keyword does with a row, if it is such a keyword, and the tokens after it.
#[inline]
fn begin_row<'a>(line: &'a [u8]) -> Option<(RowWord, Lexer<'a>)>
    ensures { BeginsRow (tokens line.now) result }
{
    match close_row_word(line) {
        Some(verb) => Some((verb, Lexer::new(&line[WORD_BYTES..]))),
        None => find_row_word(line),
    }
}

/// What the keyword does that is a line's first bytes, if a space is after it.
#[inline]
fn close_row_word(line: &[u8]) -> Option<RowWord>
    ensures { IsCloseRowWord line.now result }
{
    if line.starts_with(b"add ") {
        Some(RowWord::Add)
    } else if line.starts_with(b"del ") {
        Some(RowWord::Del)
    } else {
        None
    }
}

/// The next keyword and the tokens after it, of any line.
fn find_row_word<'a>(line: &'a [u8]) -> Option<(RowWord, Lexer<'a>)>
    ensures { BeginsRow (tokens line.now) result }
{
    if !may_begin_row(line) {
        return None;
    }
    let mut lexer = Lexer::new(line);
    match read_row_word(&mut lexer) {
        Some(verb) => Some((verb, lexer)),
        None => None,
    }
}

/// Whether a line may begin with a row's keyword, by its first byte: this excludes most other
/// lines.
fn may_begin_row(line: &[u8]) -> bool
    ensures { result ≡ may_begin line.now }
{
    match line.first() {
        Some(byte) => matches!(*byte, b' ' | b'a' | b'd'),
        None => false,
    }
}

/// What the next keyword does with a row, if it is such a keyword.
fn read_row_word(lexer: &mut Lexer<'_>) -> Option<RowWord>
    ensures { TakesRowWord lexer.old result lexer.new }
{
    let Some(word) = next_word(lexer) else {
        return None;
    };
    if is_text(word, b"add") {
        Some(RowWord::Add)
    } else if is_text(word, b"del") {
        Some(RowWord::Del)
    } else {
        None
    }
}

/// A name, and values to the line's end, one at least. Most rows are as wide as the one before, and
/// of integers of few digits as that was: these overwrite its own, and allocate nothing.
#[inline]
fn read_named<'a>(
    alloc: Global,
    line: &[u8],
    lexer: Lexer<'a>,
    row: &mut Vec<Value>,
) -> Result<&'a [u8], LineRefusal>
    requires { (verb : Verb) × TakesRowWord (tokens line.now) (Some verb) lexer }
    ensures { ReadsAs (λ p. list_all is_small_value p.1)
        (named_in line.now lexer.entry) (named_read result row.new.items) }
{
    let Some((name, values)) = take_name(lexer) else {
        return Err(LineRefusal::Syntax);
    };
    let (count, behind) = overwrite_numbers(values, row.as_mut_slice());
    if count > 0 && count == row.len() && behind.is_done() {
        return Ok(name);
    }
    row.truncate(count);
    match read_others(alloc, line, behind, row) {
        Ok(()) => Ok(name),
        Err(refusal) => Err(refusal),
    }
}

/// The values after integers that were read, one at least with them. If each is an integer of few
/// digits the line has no byte that isn't ASCII, so only others are checked for UTF-8.
#[inline(never)]
fn read_others(
    alloc: Global,
    line: &[u8],
    lexer: Lexer<'_>,
    row: &mut Vec<Value>,
) -> Result<(), LineRefusal>
    requires { list_all is_small_value row.old.items ≡ true }
    ensures { ReadsOthers line.now lexer.entry row.old.items result row.new.items }
{
    let mut rest = lexer;
    read_numbers(&mut rest, row);
    if rest.is_done() {
        if row.is_empty() {
            return Err(LineRefusal::Syntax);
        }
        return Ok(());
    }
    if !is_utf8(line) {
        return Err(LineRefusal::Syntax);
    }
    read_values(alloc, &mut rest, row)
}

/// The next name, if there is one, and the tokens after it.
#[inline]
fn take_name<'a>(lexer: Lexer<'a>) -> Option<(&'a [u8], Lexer<'a>)>
    ensures { TakesNameInFront lexer.entry result }
{
    let mut ahead = lexer;
    match ahead.next_close_name() {
        Some(name) => Some((name, ahead)),
        None => find_name(ahead),
    }
}

/// The same, for a name in any form.
fn find_name<'a>(lexer: Lexer<'a>) -> Option<(&'a [u8], Lexer<'a>)>
    ensures { TakesNameInFront lexer.entry result }
{
    let mut ahead = lexer;
    match next_word(&mut ahead) {
        Some(word) => {
            if is_name(word) {
                Some((word, ahead))
            } else {
                None
            }
        }
        None => None,
    }
}

/// The next integers of few digits, written over those with which a row begins: how many, and the
/// tokens after them.
#[inline]
fn overwrite_numbers<'a>(lexer: Lexer<'a>, row: &mut [Value]) -> (usize, Lexer<'a>)
    ensures read { ReadsNumbers lexer.entry [] result.1 (take result.0 row.new) }
    ensures within { result.0 ≤ length row.new }
{
    let mut ahead = lexer;
    let mut count = 0;
    'numbers: while count < row.len() {
        let Value::Int(place) = &mut row[count] else {
            break 'numbers;
        };
        let Some(number) = ahead.next_small() else {
            break 'numbers;
        };
        *place = number;
        count += 1;
    }
    (count, ahead)
}

/// The next integers of few digits, as far as there is memory for them.
fn read_numbers(lexer: &mut Lexer<'_>, row: &mut Vec<Value>)
    ensures read { ReadsNumbers lexer.old row.old.items lexer.new row.new.items }
    ensures fewer { length lexer.new ≤ length lexer.old }
{
    'numbers: while row.reserve(1).is_ok() {
        match lexer.next_small() {
            Some(number) => row.push_reserved(Value::Int(number)),
            None => return,
        }
    }
}

/// Values to the line's end, after those that were read.
fn read_values(
    alloc: Global,
    lexer: &mut Lexer<'_>,
    row: &mut Vec<Value>,
) -> Result<(), LineRefusal>
    requires { list_all is_small_value row.old.items ≡ true }
    ensures { ReadsAs (list_all is_small_value) (onto row.old.items (all_of literal_of lexer.old))
        (values_read result row.new.items) }
{
    'values: while let Some(token) = lexer.next() {
        let item = Value::read(alloc, &token);
        if is_outside(&item) {
            return Err(LineRefusal::Syntax);
        }
        match item {
            Ok(value) => {
                if row.push(value).is_err() {
                    return Err(read_refused(alloc, lexer, LineRefusal::NoMem));
                }
            }
            Err(refusal) => return Err(read_refused(alloc, lexer, refusal)),
        }
        read_numbers(lexer, row);
    }
    Ok(())
}

/// Why there are no values if those before the lexer are refused: the first in the order of
/// refusals to the line's end.
#[inline(never)]
fn read_refused(alloc: Global, lexer: &mut Lexer<'_>, refusal: LineRefusal) -> LineRefusal
    ensures { RefusesOn lexer.old refusal result }
{
    let mut first = refusal;
    'values: while let Some(token) = lexer.next() {
        let item = Value::read(alloc, &token);
        if is_outside(&item) {
            return LineRefusal::Syntax;
        }
        first = refused_by(first, item);
    }
    first
}

/// The first refusal, after one more item was read.
fn refused_by(first: LineRefusal, item: Result<Value, LineRefusal>) -> LineRefusal
    ensures { (xs : Tuple) (x : Datum)
        → IsRefused (Some xs) first → ReadsAs is_small_value (Some x) item
        → IsRefused (Some (xs ++ x ∷ [])) result }
{
    match item {
        Ok(_) => first,
        Err(refusal) => first.first(refusal),
    }
}
