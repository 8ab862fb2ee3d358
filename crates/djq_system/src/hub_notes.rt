//! How the calls of a hub are noted. At run time nothing of this is done.
ghost use Rattle.std.specs.Prelude.{◌≡◌, [], ◌∷◌, ◌++◌, length, map};
ghost use Rattle.djq_io.specs.Hub.{FitsTurn, Takes, brought, taken_by};
ghost use Rattle.djq_io.specs.declared.hub.Told.{Told};
ghost use Rattle.djq_system.specs.HubNotes.{told_noted};

use crate::notes::Notes;
use djq_io::{Class, Listened, Sent, Turn};

const LISTEN: u64 = 0;

const TURN: u64 = 1;

const SEND: u64 = 2;

const CLOSE: u64 = 3;

/// Notes that the hub was asked to listen at an address.
#[inline(always)]
pub(crate) fn note_listen(notes: &mut Notes, addr: &str, answer: Listened)
    ensures { map told_noted notes.new.calls ≡ map told_noted notes.old.calls ++ Told.Listening addr.now answer ∷ [] }
{
    match answer {
        Listened::Ready => notes.note(&[LISTEN, 0], addr.as_bytes()),
        Listened::Failed => notes.note(&[LISTEN, 1], addr.as_bytes()),
    }
}

/// Notes a turn, with the bytes that it brought to the start of the buffer.
#[inline(always)]
pub(crate) fn note_turn(notes: &mut Notes, answer: Turn, buf: &[u8])
    requires { FitsTurn answer (length buf.now) }
    ensures { map told_noted notes.new.calls
        ≡ map told_noted notes.old.calls ++ Told.Turning answer (brought answer buf.now) ∷ [] }
{
    match answer {
        Turn::Opened(id, Class::Client) => notes.note(&[TURN, 0, id], &[]),
        Turn::Bytes(id, n) => notes.note(&[TURN, 1, id, n as u64], &buf[..n]),
        Turn::Ended(id) => notes.note(&[TURN, 2, id], &[]),
        Turn::Idle => notes.note(&[TURN, 3], &[]),
        Turn::Over => notes.note(&[TURN, 4], &[]),
        Turn::Failed => notes.note(&[TURN, 5], &[]),
    }
}

/// Notes a send of the piece to a session, with the bytes that were accepted.
#[inline(always)]
pub(crate) fn note_send(notes: &mut Notes, id: u64, piece: &[u8], answer: Sent)
    requires { Takes answer piece.now }
    ensures { map told_noted notes.new.calls
        ≡ map told_noted notes.old.calls ++ Told.Sending id (length piece.now) answer (taken_by answer piece.now) ∷ [] }
{
    let offered = piece.len() as u64;
    match answer {
        Sent::Took(n) => notes.note(&[SEND, 0, id, n as u64, offered], &piece[..n]),
        Sent::Again => notes.note(&[SEND, 1, id, 0, offered], &[]),
        Sent::Gone => notes.note(&[SEND, 2, id, 0, offered], &[]),
    }
}

/// Notes that a session was closed.
#[inline(always)]
pub(crate) fn note_close(notes: &mut Notes, id: u64)
    ensures { map told_noted notes.new.calls ≡ map told_noted notes.old.calls ++ Told.Closing id ∷ [] }
{
    notes.note(&[CLOSE, 0, id], &[]);
}
