//! The replies of a session. Short replies are written to the room that `keep` made before the command.
ghost use Rattle.std.specs.Prelude.{◌+◌, ◌≤◌, ◌++◌, codes};
ghost use Rattle.djq_protocol.specs.Reply.{add_reply, answer_line};
ghost use Rattle.djq_protocol.specs.Reply.{delete_reply, done_reply, has_reply, held_reply, last_line};
ghost use Rattle.djq_protocol.specs.Reply.{ok_reply, query_reply, refusal_line, shape_reply};
ghost use Rattle.djq_protocol.specs.Reply.{stale_line, union_reply, watch_reply};
ghost use Rattle.djq_protocol.specs.declared.limits.TheConstants.{LAST_LINE_BYTES, REPLY_BYTES};
ghost use Rattle.djq_session.specs.Dialog.{MayQueue, Replies};

use super::Session;
use djq_model::{Answered, Name, NoMem};
use djq_protocol::{AddOutcome, DeleteOutcome, DoneRefusal, QueryOutcome, Refusal, Shape};
use djq_reply::{
    put_answer, put_explained, put_last, put_registered, say_added, say_batch, say_batch_done,
    say_deleted, say_done, say_has, say_held, say_opened, say_refused, say_shape, say_stale,
    say_union, say_watched,
};

impl<C: Copy, Q: Copy + PartialEq> Session<C, Q> {
    /// A refused command is answered.
    pub fn refuse(&mut self, refusal: Refusal)
        requires { REPLY_BYTES + LAST_LINE_BYTES ≤ self.old.room }
        ensures { Replies self.old self.new (refusal_line refusal) }
    {
        say_refused(&mut self.output, refusal);
    }

    /// `rel`, `drop`, `close`, `unwatch` and `abandon` are answered.
    pub fn answer_done(&mut self, outcome: Result<(), Refusal>)
        requires { REPLY_BYTES + LAST_LINE_BYTES ≤ self.old.room }
        ensures { Replies self.old self.new (ok_reply (codes "ok") outcome) }
    {
        say_done(&mut self.output, outcome);
    }

    /// `open` is answered.
    pub fn answer_opened(&mut self, outcome: Result<(), Refusal>)
        requires { REPLY_BYTES + LAST_LINE_BYTES ≤ self.old.room }
        ensures { Replies self.old self.new (ok_reply (codes "ok open") outcome) }
    {
        say_opened(&mut self.output, outcome);
    }

    /// `batch` is answered.
    pub fn answer_batch(&mut self, outcome: Result<(), Refusal>)
        requires { REPLY_BYTES + LAST_LINE_BYTES ≤ self.old.room }
        ensures { Replies self.old self.new (ok_reply (codes "ok batch") outcome) }
    {
        say_batch(&mut self.output, outcome);
    }

    /// `add` and `del` in a batch are answered, by how many lines it holds then.
    pub fn answer_held(&mut self, outcome: Result<(), Refusal>, held: usize)
        requires { REPLY_BYTES + LAST_LINE_BYTES ≤ self.old.room }
        ensures { Replies self.old self.new (held_reply outcome held) }
    {
        say_held(&mut self.output, outcome, held);
    }

    /// `done` is answered, at a number of changes, by how many rows were inserted and deleted.
    pub fn answer_batch_done(&mut self, outcome: Result<usize, DoneRefusal>, seq: u64)
        requires { REPLY_BYTES + LAST_LINE_BYTES ≤ self.old.room }
        ensures { Replies self.old self.new (done_reply outcome seq) }
    {
        say_batch_done(&mut self.output, outcome, seq);
    }

    /// `add` is answered, at a number of changes.
    pub fn answer_added(&mut self, outcome: Result<AddOutcome, Refusal>, seq: u64)
        requires { REPLY_BYTES + LAST_LINE_BYTES ≤ self.old.room }
        ensures { Replies self.old self.new (add_reply outcome seq) }
    {
        say_added(&mut self.output, outcome, seq);
    }

    /// `del` is answered, at a number of changes.
    pub fn answer_deleted(&mut self, outcome: Result<DeleteOutcome, Refusal>, seq: u64)
        requires { REPLY_BYTES + LAST_LINE_BYTES ≤ self.old.room }
        ensures { Replies self.old self.new (delete_reply outcome seq) }
    {
        say_deleted(&mut self.output, outcome, seq);
    }

    /// `query` is answered, by the most lookups and links for one of its answers, or by a rest.
    ///
    /// # Errors
    ///
    /// `NoMem` only if the room was too small, so for a rest alone, and can't grow; all is as
    /// before.
    pub fn answer_registered(
        &mut self,
        outcome: &Result<QueryOutcome, Refusal>,
    ) -> Result<(), NoMem>
        requires { REPLY_BYTES + LAST_LINE_BYTES ≤ self.old.room }
        ensures { MayQueue self.old self.new (query_reply outcome.now) result }
    {
        put_registered(outcome, &mut self.output)
    }

    /// `union` is answered, by the most lookups and links for one of its answers.
    pub fn answer_united(&mut self, outcome: Result<u64, Refusal>)
        requires { REPLY_BYTES + LAST_LINE_BYTES ≤ self.old.room }
        ensures { Replies self.old self.new (union_reply outcome) }
    {
        say_union(&mut self.output, outcome);
    }

    /// `has` is answered.
    pub fn answer_has(&mut self, outcome: Result<bool, Refusal>)
        requires { REPLY_BYTES + LAST_LINE_BYTES ≤ self.old.room }
        ensures { Replies self.old self.new (has_reply outcome) }
    {
        say_has(&mut self.output, outcome);
    }

    /// `shape` is answered.
    pub fn answer_shape(&mut self, outcome: Result<Shape, Refusal>)
        requires { REPLY_BYTES + LAST_LINE_BYTES ≤ self.old.room }
        ensures { Replies self.old self.new (shape_reply outcome) }
    {
        say_shape(&mut self.output, outcome);
    }

    /// `watch` is answered, at a number of changes.
    pub fn answer_watched(&mut self, outcome: Result<(), Refusal>, seq: u64)
        requires { REPLY_BYTES + LAST_LINE_BYTES ≤ self.old.room }
        ensures { Replies self.old self.new (watch_reply outcome seq) }
    {
        say_watched(&mut self.output, outcome, seq);
    }

    /// `next` is answered on a stale cursor, by the relation that changed and the number of the
    /// change.
    pub fn answer_stale(&mut self, cursor: &Name, relation: &Name, seq: u64)
        requires { REPLY_BYTES + LAST_LINE_BYTES ≤ self.old.room }
        ensures { Replies self.old self.new (stale_line cursor.now relation.now seq) }
    {
        say_stale(&mut self.output, cursor, relation, seq);
    }

    /// An answer that `next` lists is queued.
    ///
    /// # Errors
    ///
    /// `NoMem` only if the room was too small and can't grow; all is as before.
    pub fn queue_answer<A: Answered>(&mut self, answer: &A) -> Result<(), NoMem>
        ensures { MayQueue self.old self.new (answer_line (A.values answer.now)) result }
    {
        put_answer(answer, &mut self.output)
    }

    /// The lines that explain the tree of a query or the members of a union are queued, and `end` after
    /// them.
    ///
    /// # Errors
    ///
    /// `NoMem` only if the room was too small and can't grow; all is as before.
    pub fn queue_explained(&mut self, lines: &[u8]) -> Result<(), NoMem>
        ensures { MayQueue self.old self.new (lines.now ++ codes "end\n") result }
    {
        put_explained(lines, &mut self.output)
    }

    /// The last line of a listing is queued.
    ///
    /// # Errors
    ///
    /// `NoMem` only if the room was too small and can't grow; all is as before.
    pub fn queue_last(&mut self, is_end: bool) -> Result<(), NoMem>
        ensures { MayQueue self.old self.new (last_line is_end) result }
    {
        put_last(is_end, &mut self.output)
    }
}
