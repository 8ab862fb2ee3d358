//! That answers are decided and finitely many, and that every change of relations has a delta.
//!
//! Each function here is empty: its contract is the law, and its proof is about no code. What a change adds and
//! removes is then a list that may be spoken of, even if a program never made it: if its log was lost, or a row
//! was refused.
//!
//! ```text
//! q(x) <- r(x,y)     r before: (1,5) (2,5)     after: (1,5) (1,6)
//!
//! answers            1, 2                      1
//! the delta          - 2                       1 stays an answer, so nothing is new
//! ```
//!
//! What this crate is not: it lists nothing that anybody runs. Deltas are listed by djq_engine, from the marks
//! that an update leaves (djq_enumeration).
//!
//! What surprises: it isn't obvious that there are such lists. An answer is what an assignment of values to all
//! names gives on the head, and there are infinitely many of these. So the laws ask that each variable of a head
//! occurs in the body, as the protocol asks of a query.
//!
//! Inside, the values of a bound answer are from rows, so those to try are finitely many, and each is decided by
//! trying the choices of a row for each atom. A variable that only comparisons bind is given the first of a few
//! values that passes them: their constants, and the numbers as far as one that is past them all.
//! [`deltas_exist`] then compares two listings.
//!
//! djq_engine cites [`deltas_exist`] of changes whose delta no log has, and djq_run_laws [`answers_are_decided`]
//! when a listing and a delta are added up.
#![tactic(auto)]

ghost use Rattle.djq_answer_laws.specs.Decided.{AnswersAreDecided};
ghost use Rattle.djq_answer_laws.specs.Finite.{AnswersAreFinite, DeltasExist};
ghost use Rattle.djq_answer_laws.specs.Bounded.{AnswersAreBounded};
ghost use Rattle.djq_answer_laws.specs.Growing.{AnswersStay, AnswersCome, AnswersGo, RowComes, RowGoes};
ghost use Rattle.djq_answer_laws.specs.Growing.{ChangesSpareOthers, AnswersRest};
ghost use Rattle.djq_answer_laws.specs.Net.{NetDelta, UnionsReport};

/// A tuple is an answer of what is registered over some relations, or it isn't.
pub fn answers_are_decided()
    ensures { AnswersAreDecided }
{}

/// What is registered has finitely many answers: a query, if each variable of its head occurs in its body, and a
/// union if that holds of its members.
pub fn answers_are_finite()
    ensures { AnswersAreFinite }
{}

/// So each change of relations has a delta: the answers that were added and removed, each once.
pub fn deltas_exist()
    ensures { DeltasExist }
{}

/// It has no more answers than there are choices of a row for each of its atoms; a union no more than
/// its members together.
pub fn answers_are_bounded()
    ensures { AnswersAreBounded }
{}

/// If rows are only inserted, as by an `add`, answers are only added; if they are only deleted, as by a `del`,
/// answers are only removed.
pub fn answers_follow_rows()
    ensures stay { AnswersStay }
    ensures come { AnswersCome }
    ensures go { AnswersGo }
    ensures added { RowComes }
    ensures deleted { RowGoes }
{}

/// A change leaves the relations that it doesn't touch as they were, and so the answers of a query that
/// reads none that it touches.
pub fn answers_rest()
    ensures rest { AnswersRest }
    ensures changes { ChangesSpareOthers }
{}

/// If rows are inserted and others deleted at once, all insertions first, the answers added by the first and
/// those removed by the second, without those in both, are the delta of the whole change.
pub fn net_deltas()
    ensures { NetDelta }
{}

/// The answers added to and removed from a union are those that are in the delta of a member and that all members
/// agree with.
pub fn union_deltas()
    ensures { UnionsReport }
{}
