ghost use Rattle.std.specs.Prelude.{◌≡◌, ◌≤◌, length, IfOk, MatchBool, MatchOption, MatchResult, option_map};
ghost use Rattle.djq_model.specs.Parts.{before, behind};
ghost use Rattle.djq_schedule.specs.Schedule.{rest_or_none, schedule_lines, turn_of_line};
ghost use Rattle.djq_schedule.specs.Made.{in_grammar, AddsLine, ScheduleIsMade, ScheduleRefuses};

use crate::line::{Keyword, read_order, split_at};
use crate::sessions_so_far::SessionsSoFar;
use djq_io::{Coming, Incoming, MemHub, Piece};
use std::alloc::{AllocError, Global};

/// The most bytes of a line, without its LF.
const LINE_BYTES: usize = 8192;

/// Why a schedule is no hub.
#[derive(Clone, Copy, Debug, PartialEq, Eq)]
pub enum ScheduleRefusal {
    /// This line, counted from 1, is the first that is outside the grammar.
    Outside(u64),
    /// Out of memory.
    NoMem,
}

/// The hub of a schedule, which was asked nothing yet.
///
/// # Errors
///
/// `Outside(n)` if and only if line n, counted from 1, is the first outside the grammar; `NoMem` out
/// of memory.
pub fn schedule_hub(alloc: Global, bytes: &[u8]) -> Result<MemHub, ScheduleRefusal>
    ensures { MatchResult result (ScheduleIsMade bytes.now) (ScheduleRefuses bytes.now) }
{
    let mut hub = MemHub::new(alloc);
    let mut seen = SessionsSoFar::new(alloc);
    let mut rest = bytes;
    let mut number: u64 = 0;
    'lines: while !rest.is_empty() {
        number += 1;
        let (line, behind) = next_line(rest);
        match add_line(alloc, &mut hub, &mut seen, line) {
            Ok(true) => {}
            Ok(false) => return Err(ScheduleRefusal::Outside(number)),
            Err(_) => return Err(ScheduleRefusal::NoMem),
        }
        rest = behind;
    }
    Ok(hub)
}

/// How many lines a schedule has.
pub fn count_lines(bytes: &[u8]) -> u64
    ensures counted { result ≡ length (schedule_lines bytes.now) }
    ensures few { result ≤ length bytes.now }
{
    let mut count: u64 = 0;
    let mut rest = bytes;
    'lines: while !rest.is_empty() {
        count += 1;
        rest = next_line(rest).1;
    }
    count
}

/// The first line, without its LF, and the bytes after it.
fn next_line(bytes: &[u8]) -> (&[u8], &[u8])
    ensures line { result.0.now ≡ before 10 bytes.now }
    ensures rest { result.1.now ≡ rest_or_none (behind 10 bytes.now) }
{
    match split_at(bytes, b'\n') {
        (line, Some(rest)) => (line, rest),
        (line, None) => (line, &[]),
    }
}

/// Appends the turn of a line, if it is in the grammar. Returns whether it is.
fn add_line(
    alloc: Global,
    hub: &mut MemHub,
    seen: &mut SessionsSoFar,
    line: &[u8],
) -> Result<bool, AllocError>
    ensures { IfOk result (λ added. AddsLine added seen.old hub.old line.now seen.new hub.new) }
{
    let Some((keyword, id, text)) = read_standing(seen, line) else {
        return Ok(false);
    };
    let turn = make_turn(alloc, keyword, id, text)?;
    seen.note(keyword, id)?;
    let blocked = seen.blocked(alloc)?;
    hub.push(Coming { turn, blocked })?;
    Ok(true)
}

/// The keyword, session and text of a line, if it is in the grammar.
fn read_standing<'a>(
    seen: &SessionsSoFar,
    line: &'a [u8],
) -> Option<(Keyword, u64, Option<&'a [u8]>)>
    ensures { option_map (λ o. (o.0, (o.1, option_map (λ text. text.now) o.2))) result ≡ in_grammar
        seen.now line.now }
{
    if line.len() > LINE_BYTES {
        return None;
    }
    let (keyword, id, text) = read_order(line)?;
    if seen.may_stand(keyword, id) {
        Some((keyword, id, text))
    } else {
        None
    }
}

/// The turn of a line.
fn make_turn(
    alloc: Global,
    keyword: Keyword,
    id: u64,
    text: Option<&[u8]>,
) -> Result<Incoming, AllocError>
    ensures { IfOk result (λ turn. turn ≡ turn_of_line keyword id (option_map (λ t. t.now) text.entry)) }
{
    let text = text.unwrap_or(&[]);
    Ok(match keyword {
        Keyword::Open => Incoming::Opens(id),
        Keyword::Say => {
            let mut line = Vec::from_slice(alloc, text)?;
            line.push(b'\n')?;
            Incoming::Brings(id, Piece::of(line))
        }
        Keyword::Part => Incoming::Brings(id, Piece::copy_of(alloc, text)?),
        Keyword::Again | Keyword::Free => Incoming::Nothing,
        Keyword::End => Incoming::Ends(id),
    })
}
