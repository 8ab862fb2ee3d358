//! What a mirror has after what a session was sent, written to a sink.
ghost use Rattle.std.specs.Prelude.{◌≡◌, IfOk, MatchResult};
ghost use Rattle.djq_mirror.specs.Mirror.{written};
ghost use Rattle.djq_mirror.specs.Ends.{HaltIsTold, IsUntold, MirrorLeaves, LeavesNone, MirrorEnds, unfollowed_line};

use crate::Mirror;
use crate::follower::{Follower, Halt};
use crate::reading::{Followed, follow};
use bytes::BytesMut;
use djq_io::limits::READ_BYTES;
use djq_io::{Sink, Source, Written, write_all};
use djq_model::{Name, NoMem};
use djq_value::put;
use itoa::Buffer;
use std::alloc::Global;

/// How `mirror` ended.
#[derive(Clone, Copy, Debug, PartialEq, Eq)]
pub enum Mirrored {
    /// The input was read to its end and followed, and the answers after it, or `none`, were written.
    Done,
    /// This line, counted from 1, can't be followed, and a line with its number was written.
    Outside(u64),
    /// A read failed. Nothing was written.
    ReadFault,
    /// A write failed.
    WriteFault,
    /// More was read than can be counted. Nothing was written.
    TooMany,
    /// Out of memory. Nothing was written.
    NoMemory,
}

/// Reads what one session was sent from the source, and writes the answers of a query after it.
/// They are lines in byte order with `end` after them, or `none` if they aren't known whole. If a line can't
/// be followed, it writes which line is the first, and nothing is read after it.
pub fn run_mirror<S: Source, K: Sink>(
    alloc: Global,
    query: Name,
    source: &mut S,
    sink: &mut K,
) -> Mirrored
    ensures { MirrorEnds result query (S.told source.old) (S.told source.new)
        (S.faults source.old) (S.faults source.new) (K.told sink.old) (K.told sink.new)
        (K.faults sink.old) (K.faults sink.new) }
{
    match leave(alloc, query, source) {
        Ok((text, answer)) => match write_all(sink, &text) {
            Written::All => answer,
            Written::Failed(_) => Mirrored::WriteFault,
        },
        Err(answer) => answer,
    }
}

/// Reads what a session was sent, and returns what is to be written of it with the outcome; or the
/// outcome alone, if nothing is to be written.
fn leave<S: Source>(
    alloc: Global,
    query: Name,
    source: &mut S,
) -> Result<(BytesMut, Mirrored), Mirrored>
    ensures { MatchResult result
        (λ made. MirrorLeaves made.1 made.0.items query (S.told source.old) (S.told source.new)
        (S.faults source.old) (S.faults source.new))
        (λ answer. LeavesNone answer query (S.told source.old) (S.told source.new)
        (S.faults source.old) (S.faults source.new)) }
{
    let Ok(mut buffer) = vec![in alloc; 0; READ_BYTES] else {
        return Err(Mirrored::NoMemory);
    };
    let mut follower = Follower::new(alloc, Mirror::new(alloc, query));
    match follow(&mut follower, source, &mut buffer) {
        Followed::Whole => written(alloc, &follower.into_mirror()),
        Followed::Halted(halt) => tell_halt(alloc, halt),
        Followed::ReadFault => Err(Mirrored::ReadFault),
    }
}

/// What is written of a mirror at the end.
fn written(alloc: Global, mirror: &Mirror) -> Result<(BytesMut, Mirrored), Mirrored>
    ensures { MatchResult result
        (λ made. (made.0.items ≡ written mirror.now.held) × (made.1 ≡ Mirrored.Done))
        (λ answer. answer ≡ Mirrored.NoMemory) }
{
    let mut text = BytesMut::new(alloc);
    match mirror.write(&mut text) {
        Ok(()) => Ok((text, Mirrored::Done)),
        Err(NoMem) => Err(Mirrored::NoMemory),
    }
}

/// What is written if the mirror can't follow any further.
fn tell_halt(alloc: Global, halt: Halt) -> Result<(BytesMut, Mirrored), Mirrored>
    ensures { MatchResult result (λ made. HaltIsTold halt made.0.items made.1) (IsUntold halt) }
{
    match halt {
        Halt::Outside(number) => tell_outside(alloc, number),
        Halt::TooMany => Err(Mirrored::TooMany),
        Halt::NoMem => Err(Mirrored::NoMemory),
    }
}

/// The line that reports which line can't be followed.
fn tell_outside(alloc: Global, number: u64) -> Result<(BytesMut, Mirrored), Mirrored>
    ensures { MatchResult result
        (λ made. (made.0.items ≡ unfollowed_line number) × (made.1 ≡ Mirrored.Outside number))
        (λ answer. answer ≡ Mirrored.NoMemory) }
{
    match outside_text(alloc, number) {
        Ok(text) => Ok((text, Mirrored::Outside(number))),
        Err(NoMem) => Err(Mirrored::NoMemory),
    }
}

/// The same without the outcome.
fn outside_text(alloc: Global, number: u64) -> Result<BytesMut, NoMem>
    ensures { IfOk result (λ text. text.items ≡ unfollowed_line number) }
{
    let mut text = BytesMut::new(alloc);
    put(&mut text, b"mirror ")?;
    let mut digits = Buffer::new();
    put(&mut text, digits.format(number).as_bytes())?;
    put(&mut text, b"\n")?;
    Ok(text)
}
