//! Laws on what is sent to sessions: which lines they are sent, and what a mirror makes of them.
//!
//! Each function here is empty: its contract is the law, and its proof concerns no code. They are
//! laws of every run of the join machine, whatever program makes it.
//!
//! ```text
//! 1 sends watch q           ok watch 0         the mirror of q is idle
//! 1 sends open c q          ok open            it lists, and has nothing
//! 1 sends next c 9          = 2, = 1, end      it is live, and has 1 and 2
//! 2 sends add r 3 5         + q 3, at q 3      it has 1, 2 and 3
//! 2 sends del r 1 5         - q 1, at q 4      it has 2 and 3
//! 2 sends batch, del r 2 5,
//! add r 4 5, done           - q 2, + q 4, at q 5
//!                                              it has 3 and 4, the answers of q
//! ```
//!
//! What this crate is not: it reads no bytes. djq_mirror defines what a reply line is, and what each form of
//! one does to what a mirror holds, and parses lines.
//!
//! What surprises: a delta and a listing send answers by their texts, and a mirror stores texts. That
//! two answers have two texts depends on what a line can express: a value within its limit is read back from
//! its text. So the laws on mirrors ask for states that lines have made, and `specs/Sayable.antt`
//! defines which these are.
//!
//! Inside, `proofs/Deltas.antt` has what is queued to one session of a change, and `Replying.antt` what each
//! command is answered by the forms of replies. `Mirroring.antt` has what replies make of what a mirror
//! holds, and `Mirrored.antt` ties that to the session's cursor, step by step. `Printed.antt` proves that
//! what a sayable state is asked is printed by the forms. That a rest is short, `Lengths.antt` and
//! `Resting.antt` show: its names occur in the line that defines the query, and the reduction of
//! Graham and of Yu and Ozsoyoglu only deletes some.
#![tactic(auto)]

ghost use Rattle.djq_mirror_laws.specs.Sayable.{RunsKeepSayable, OpeningIsSayable, StatesAreSayable};
ghost use Rattle.djq_mirror_laws.specs.Loaded.{LoadedAreSayable};
ghost use Rattle.djq_mirror_laws.specs.Told.{WatchersAreToldExactly};
ghost use Rattle.djq_mirror_laws.specs.Mirrored.{WatchersAreMirrored, ReadersAreMirrored};
ghost use Rattle.djq_mirror_laws.specs.Lines.{PrintedAreLines};
ghost use Rattle.djq_mirror_laws.specs.Mirrored.{StartsAreMirrored, EndsAreMirrored, MirroredAreHeld, ReadersAreReadBack};
ghost use Rattle.djq_mirror_laws.specs.Whole.{SessionsAreReadBack, OpenedAreReadBack, HeldAlone};

/// Let a run begin in a state to start from whose names and values a line can express. Along all of it names
/// are names, values are within their limits and their texts of UTF-8, and each variable of a
/// registered query's head occurs in its body. This holds of relations, queries, unions, cursors and watches,
/// of rows, known texts and constants, of what cursors have given, and of what batches hold. The state that
/// loaded lines give is such a state to start from.
pub fn states_are_sayable()
    ensures kept { RunsKeepSayable }
    ensures opening { OpeningIsSayable }
    ensures reached { StatesAreSayable }
    ensures loaded { LoadedAreSayable }
{}

/// What is queued to a session that watches a query or a union is whole reply lines. Those among them that
/// concern the query are its deltas, one after the other, and no others. They add up to the answers
/// over the present rows.
pub fn watchers_are_told_exactly()
    ensures { WatchersAreToldExactly }
{}

/// A session begins to watch a query or a union and then reads it through one cursor at a time. A mirror of
/// it, of what that session was sent, refuses nothing. If it is live, it holds the answers over
/// the present rows, or over those that were present as the session sent `quit` or `stop`, its input ended,
/// or it was closed. What it is sent then is covered too: that a line was cut, that lines which its batch held
/// are dropped, and `bye`. This is stated of replies by their forms. From a start whose names and values a line
/// can express it is also stated of the whole of the bytes that the session was sent. And it is stated after
/// the session's end: to the last step of the run, whatever follows that end.
pub fn readers_are_mirrored()
    ensures watching { WatchersAreMirrored }
    ensures reading { ReadersAreMirrored }
    ensures started { StartsAreMirrored }
    ensures ended { EndsAreMirrored }
    ensures held { MirroredAreHeld }
    ensures read_back { ReadersAreReadBack }
    ensures whole { SessionsAreReadBack }
    ensures opened { OpenedAreReadBack }
{}

/// An input that leads to what a mirror holds is refused at no line, and whatever else it may lead to
/// shows the same answers.
pub fn inputs_are_held_alone()
    ensures { HeldAlone }
{}

/// A printed reply is one line, without an LF inside, and no longer than 16,384 bytes: a rest too, if
/// its edges need no more bytes than a line may have. Lines that explain a tree aren't covered.
pub fn printed_are_lines()
    ensures { PrintedAreLines }
{}
