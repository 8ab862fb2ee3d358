//! The join machine refines the abstract core: each of its steps is one of the core's or none.
//!
//! What the core's laws promise of answers, cursors and deltas holds of the machine by this, and so of what
//! `djq` sends: djq_run and djq_serve make runs of the machine. Each function here is empty: its contract is
//! the law, and its proof concerns no code.
//!
//! ```text
//! 2 sends add jobs 12 2 "waiting"    2 says the edit that inserts jobs (12,2,"waiting")
//! to 1: + waiting 2 12, at waiting 2  1 is sent the delta of waiting by change 2: inserted (2,12)
//! to 2: ok added 2 1                  2 is sent ok
//! machine_refines_core                so the machine's step is a step of the core
//! ```
//!
//! Three files define it, read in the order of `specs/Lib.antt`. `View` is what the core sees: of a state its
//! rows with their copies, its queries, its number of changes and its sessions as clients; of a line its
//! command. `Spelling` is which bytes spell each message of the core: the line that accepts or refuses a
//! command, the lines of a page and of a delta. `Refinement` states the laws.
//!
//! What this crate is not: it doesn't state when a command is refused, or when a session ends. The core
//! allows both at any step; the machine's definitions (djq_machine) have the conditions. And it makes no
//! run. That the bytes sent to a session are a prefix of those queued to it is a law of djq_run_laws
//! (`sent_in_order`).
//!
//! What surprises: a session that has ended is no client any more, though bytes are pending for it. So
//! nothing is stated of what is queued in the step that ends it. A line outside the grammar isn't refused in
//! the core's words: it asks, and is replied to by its error line. Of `del` of an absent row, `ok absent` is
//! a refusal.
//!
//! Inside, `proofs/Clients.antt` has the steps in which one session becomes another or ends; `Commands` has
//! each command but those of rows. For these, `Telling` follows what a change queues to one session through
//! all deltas and sessions, `AcceptedChanges` and `ChangeSteps` make a step of the core of it, and `Edits`
//! shows which rows change. `Steps` puts the cases together.
#![tactic(auto)]

ghost use Rattle.djq_refinement.specs.Refinement.{MachineRefinesCore, RunsRefineCore, CoursesRefineCore};
ghost use Rattle.djq_refinement.specs.Refinement.{MachineStatesAreReached, MachineFinishedListed};
ghost use Rattle.djq_refinement.specs.Refinement.{MachineSubscribersHaveAnswers};

/// Each step of the machine from a sound state is a step of the core, or none: a session opens, or says its
/// line's command, or is disconnected. To each session that goes on after it the core sends the
/// messages that the texts queued to the session spell, one by one, in order. To one that didn't go on
/// before it nothing is queued.
pub fn machine_refines_core()
    ensures { MachineRefinesCore }
{}

/// So each run of the machine from a sound state is a run of the core, event by event. To each session that
/// goes on at its end and wasn't closed the core sends the messages that all bytes queued to it spell. So is
/// each course of the program under the words `run`.
pub fn runs_refine_core()
    ensures runs { RunsRefineCore }
    ensures courses { CoursesRefineCore }
{}

/// Each state that a run of the machine reaches from a state to start from is one that a run of the core
/// reaches. So the core's two promises hold of the machine. A finished cursor that isn't
/// stale has returned each answer over the present rows once. A session that has a listing of a
/// query's answers and watches it from then on has the answers over the present rows by applying the
/// deltas that are queued to it.
pub fn promises_hold_of_runs()
    ensures reached { MachineStatesAreReached }
    ensures finished { MachineFinishedListed }
    ensures subscribers { MachineSubscribersHaveAnswers }
{}
