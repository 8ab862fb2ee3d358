ghost use Rattle.std.specs.Prelude.{◌≡◌, ◌∷◌, ◌++◌, codes, OnErr, OnOk};
ghost use Rattle.std.specs.List.{flat_map};
ghost use Rattle.djq_protocol.specs.Reply.{line as line_of};
ghost use Rattle.djq_mirror.specs.Acting.{AppendsText, LineEnds, MirrorTurns, AppendsOrKeeps, set_texts};
ghost use Rattle.djq_mirror.specs.Mirror.{at_first, written};
ghost use Rattle.djq_mirror.specs.Reading.{news_by, turn_by};

use crate::mode::{Mode, REPLY_LINE_BYTES};
use crate::texts::{Texts, act_on};
use crate::told::{Told, read_line};
use crate::turn::turn;
use bytes::BytesMut;
use djq_model::{Name, NoMem};
use djq_value::put;
use std::alloc::Global;
use std::collections::BTreeSet;
use std::marker::Model;
use thiserror::Error;

/// Why a line isn't followed.
#[derive(Clone, Copy, Debug, PartialEq, Eq, Error)]
pub enum MirrorRefusal {
    /// It isn't allowed: it is of no form, too long, or nothing that may follow the lines before it.
    #[error("a line that is not allowed")]
    Outside,
    /// Out of memory.
    #[error("out of memory")]
    NoMem,
}

/// The answers of one query, as far as the lines that a session was sent report them.
///
/// Contracts see the query's name, the mode, and the texts of the answers in byte order.
#[derive(Debug, Drop)]
pub struct Mirror {
    alloc: Global,
    name: Name,
    mode: Mode,
    texts: Texts,
}

impl Model for Mirror {
    ghost use Rattle.djq_mirror.specs.Mirror.{SeenMirror};

    ghost Value = { SeenMirror };

    ghost use Rattle.djq_mirror.specs.Acting.{set_texts};

    ghost view = { λ m. record {
      name = m.name;
      held = record { mode = m.mode; texts = set_texts m.texts };
    } };
}

impl Mirror {
    /// A mirror of this query, which holds nothing.
    pub fn new(alloc: Global, name: Name) -> Self
        ensures name { result.name ≡ name }
        ensures held { result.held ≡ at_first }
    {
        Mirror {
            alloc,
            name,
            mode: Mode::Idle,
            texts: BTreeSet::new(alloc),
        }
    }

    /// Follows the next line that the session was sent, without its LF.
    ///
    /// # Errors
    ///
    /// `Outside` if and only if the line isn't allowed, `NoMem` out of memory. Either leaves all as
    /// before.
    pub fn line(&mut self, line: &[u8]) -> Result<(), MirrorRefusal>
        ensures { LineEnds self.old line.now result self.new }
    {
        if line.len() > REPLY_LINE_BYTES {
            return Err(MirrorRefusal::Outside);
        }
        match read_line(self.alloc, line) {
            Ok(Some(told)) => self.take(told),
            Ok(None) => Err(MirrorRefusal::Outside),
            Err(_) => Err(MirrorRefusal::NoMem),
        }
    }

    /// Does what a line reports.
    fn take(&mut self, told: Told<'_>) -> Result<(), MirrorRefusal>
        ensures { MirrorTurns self.old (turn_by self.old.name self.old.held.mode (news_by told.entry))
            result self.new }
    {
        let Some((mode, act)) = turn(self.name.as_bytes(), self.mode, told) else {
            return Err(MirrorRefusal::Outside);
        };
        act_on(self.alloc, &mut self.texts, act)?;
        self.mode = mode;
        Ok(())
    }

    /// Appends what the mirror holds: in mode Live its answers in byte order, as the lines of a
    /// listing, and `end`; else `none`.
    ///
    /// # Errors
    ///
    /// `NoMem` out of memory; the output is then as before.
    pub fn write(&self, out: &mut BytesMut) -> Result<(), NoMem>
        ensures ok { OnOk result (out.new.items ≡ out.old.items ++ written self.now.held) }
        ensures err { OnErr result (out.new.items ≡ out.old.items) }
    {
        let start = out.len();
        let outcome = match self.mode {
            Mode::Live => add_answers(&self.texts, out),
            Mode::Idle | Mode::Listing => put(out, b"none\n"),
        };
        if outcome.is_err() {
            out.truncate(start);
        }
        outcome
    }
}

/// Appends answers as the lines of a listing, and `end`.
fn add_answers(texts: &Texts, out: &mut BytesMut) -> Result<(), NoMem>
    ensures { AppendsText out.old.items
        (flat_map (λ t. line_of (61 ∷ t)) (set_texts texts.now) ++ line_of (codes "end"))
        result out.new.items }
{
    for text in texts.iter() {
        add_answer(text, out)?;
    }
    put(out, b"end\n")
}

/// Appends an answer as the line of a listing.
fn add_answer(text: &[u8], out: &mut BytesMut) -> Result<(), NoMem>
    ensures { AppendsOrKeeps out.old.items (line_of (61 ∷ text.now)) result out.new.items }
{
    out.reserve(text.len() + 2)?;
    out.extend_reserved(b"=");
    out.extend_reserved(text);
    out.extend_reserved(b"\n");
    Ok(())
}
