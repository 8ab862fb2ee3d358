//! Laws that hold of every run of the join machine, whatever program makes it.
//!
//! Each function here is empty: its contract is the law, and its proof concerns no code. So a
//! reader finds the laws in one place, and a program that makes a run has them of that run. They
//! hold from any state on, over any number of sessions.
//!
//! ```text
//! 1 sends open c q, next c 9      = 1 5, end                       a listing: (1,5)
//! 1 sends watch q                 ok watch 3
//! 2 sends add r 2 5               to 1: + q 2 5, at q 4
//! listings_stay_live              (1,5) (2,5) is a listing of q over the rows after it
//! ```
//!
//! What this crate is not: it makes no run, and doesn't state that a program makes one. That djq_run
//! and djq_serve promise, and djq puts the two together in what `run_program` promises. The laws on
//! lines that are logged are djq_log_laws's.
//!
//! What surprises: `specs/Course.antt` defines what the program may make of a run under the words
//! `run`, and what its source, its sink and its counters show of it. It is the one reason for which this
//! crate depends on djq_io, and has limits. Whoever makes a course, djq_run, cites it.
//!
//! Inside, a law over commands is proved by their forms: `specs/Form.antt` defines what each command may
//! change, and `proofs/Forms.antt` proves that it does. A new command is given a form there. Laws over
//! runs are proved by induction over steps, each law in a file of `specs/` with the notions that it needs.
//! That a tuple is an answer of a query or isn't is a law of djq_answer_laws, on which [`deltas_add_up`]
//! rests.
#![tactic(auto)]

ghost use Rattle.djq_run_laws.specs.Moved.{StaysOpen, BytesCome, BytesAreTaken, InputEnds, LineIsTaken};
ghost use Rattle.djq_run_laws.specs.Rising.{IdsRise};
ghost use Rattle.djq_run_laws.specs.Sent.{SentBytes, SentInOrder};
ghost use Rattle.djq_run_laws.specs.Lines.{LinesInOrder};
ghost use Rattle.djq_run_laws.specs.Given.{RunsGive, CoursesGive};
ghost use Rattle.djq_run_laws.specs.Added.{DeltasAddUp};
ghost use Rattle.djq_run_laws.specs.Watched.{WatchersHaveAnswers};
ghost use Rattle.djq_run_laws.specs.Staying.{WatchersStay};
ghost use Rattle.djq_run_laws.specs.Stopping.{KeptSaysNoStop};
ghost use Rattle.djq_run_laws.specs.Silent.{OverIsSilent, OverOnce};
ghost use Rattle.djq_run_laws.specs.Live.{ListingsStayLive, RunsStayLive};
ghost use Rattle.djq_run_laws.specs.Finished.{RunsHaveListed};
ghost use Rattle.djq_run_laws.specs.Sound.{RunsKeepSound, OpeningIsStart, StatesAreSound};
ghost use Rattle.djq_run_laws.specs.Copies.{RowsHaveCopies, AddsCopy, TakesCopy, LinesLeaveCopies};
ghost use Rattle.djq_run_laws.specs.Listed.{GivenIsTold, ListedIsTold};

/// A session that is open stays so in every step that doesn't close it.
pub fn stays_open()
    ensures { StaysOpen }
{}

/// Bytes that are received for a session are appended to those held, or dropped if it has ended; or
/// it ends out of memory, and a line reports that.
pub fn bytes_come()
    ensures { BytesCome }
{}

/// Bytes that are sent to a session are the first of those that were pending, and nothing else of
/// it changes.
pub fn bytes_are_taken()
    ensures { BytesAreTaken }
{}

/// A session whose input ends retains the cause that it has, or has that one. A line reports that if
/// bytes were held, and then one reports that lines are dropped if its batch held any.
pub fn input_ends()
    ensures { InputEnds }
{}

/// A line of a session that hadn't ended is consumed, and removed from the bytes held. Its outcome
/// determines whether the session ends, and by which cause.
pub fn line_is_taken()
    ensures { LineIsTaken }
{}

/// Each state that a run reaches from a state to start from is sound. Relations, queries, known texts, the
/// rows of a relation and the answers that an open cursor has given are without repeats; rows are of their
/// columns' types, each with one copy at least. Queries read relations that are present, and are
/// free-connex; the members of a union are registered queries, two at least, none twice, with answers of the
/// same types. Cursors and watches are of what is registered; the row of each line that a batch holds suits
/// its relation, and the line's bytes parse to it. A session that has ended has none of them; and sessions
/// are by rising id.
///
/// The limits of the protocol hold in it. There are limits on relations, their columns (one at least) and
/// rows, the copies of a row, known texts, queries and unions, and their members. There are others on a
/// query's atoms, variables, head variables and comparisons, the number of changes, a session's cursors,
/// the lines of its batch and their bytes, and sessions. That names and values are within theirs is
/// `states_are_sayable` of djq_mirror_laws.
///
/// Every run preserves this. The state in which nothing has happened is one to start from.
pub fn states_are_sound()
    ensures kept { RunsKeepSound }
    ensures opening { OpeningIsStart }
    ensures reached { StatesAreSound }
{}

/// Relations are bags. A row is present if and only if it has a copy. An `add` that is done makes one
/// copy of its row more, a `del` one less if there is one, and each reports how many there are
/// then. Every other row has as many as before. A change is counted if and only if a row gets its
/// first copy or loses its last. A `done` that isn't refused leaves each row the copies that its lines
/// leave, one after another: an `add` one more, a `del` one less. It counts one change if and only if a row
/// of its lines gets its first copy or loses its last.
pub fn copies_are_counted()
    ensures there { RowsHaveCopies }
    ensures added { AddsCopy }
    ensures taken { TakesCopy }
    ensures lines { LinesLeaveCopies }
{}

/// A step that logs a group of lines runs no `stop`. So if a group that is to be logged can't be,
/// no session sent it yet.
pub fn kept_says_no_stop()
    ensures { KeptSaysNoStop }
{}

/// The open sessions stay by rising id, along every run.
pub fn ids_rise()
    ensures { IdsRise }
{}

/// What was sent or dropped of a session's bytes, and then what is pending, is what was pending
/// and all that was queued to it, in order: along every run.
pub fn sent_bytes()
    ensures { SentBytes }
{}

/// What was sent of a session's bytes precedes what was dropped as it closed, and what
/// is pending: along every run in which no session opens twice.
pub fn sent_in_order()
    ensures { SentInOrder }
{}

/// Nothing is queued to a session that has ended, or isn't open: no reply, and no delta. It stays so
/// until a session of its id opens; for one that was open, for good, if none opens twice.
pub fn ended_are_told_nothing()
    ensures silent { OverIsSilent }
    ensures once { OverOnce }
{}

/// A session's bytes are run in order, whatever the other sessions do: along every run in which it
/// isn't closed, the lines consumed of it are those that its bytes are cut into.
pub fn lines_in_order()
    ensures { LinesInOrder }
{}

/// Along every run an open cursor has given different answers of its query over the present rows,
/// and once its last answer was `end` all of them, each once.
pub fn runs_give()
    ensures { RunsGive }
{}

/// In each state that a run reaches from a state to start from, an open cursor whose `end` was
/// queued has given a listing of its query. It is each answer over the present rows, once, and nothing else.
pub fn runs_have_listed()
    ensures { RunsHaveListed }
{}

/// What an open cursor has given is what was queued to its session since it opened it. The replies to
/// its `next` lines, but those that a batch doesn't let through, are page by page those answers, in
/// order. The last of them has the `end` if and only if the cursor is finished. So to a
/// session that has listed a query each answer over the present rows was queued, once.
pub fn given_is_told()
    ensures given { GivenIsTold }
    ensures listed { ListedIsTold }
{}

/// Every course of the program has the headline: the bytes sent, the lines consumed, what was counted of
/// listings in all, and what the cursors gave.
pub fn courses_give()
    ensures { CoursesGive }
{}

/// A listing and the delta of a change make a listing of the answers after it. So a session that deletes
/// the answers that were removed, and inserts those that were added, has what it would list anew.
pub fn deltas_add_up()
    ensures { DeltasAddUp }
{}

/// A session that watches a query all along a run, and adds up what is queued to it of that query, has the
/// answers of the query over the present rows. Each accepted change of a relation that the
/// query reads is queued to it.
pub fn watchers_have_answers()
    ensures { WatchersHaveAnswers }
{}

/// A session that watches a registered query does so as long as it runs and doesn't unwatch it:
/// the query stays registered.
pub fn watchers_stay()
    ensures { WatchersStay }
{}

/// A session has listed a query through a cursor, and watches it. As long as it runs and doesn't unwatch
/// it, it has the answers over the present rows by adding up what is queued to it. That is one
/// delta for each accepted change of a relation that the query reads, by rising number. This holds
/// if cursors give what they should, and from each state on that a run reaches from a state to
/// start from.
pub fn listings_stay_live()
    ensures live { ListingsStayLive }
    ensures started { RunsStayLive }
{}
