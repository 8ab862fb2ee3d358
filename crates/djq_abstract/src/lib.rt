//! The abstract core: a machine with what djq promises of answers, cursors and deltas, and nothing that
//! a computer needs.
//!
//! Rows with copies are a function, clients are a function, and commands and messages are data. So
//! the core has no bytes, limits, memory, texts or costs. Its definitions (`specs/`, read in the order
//! of `specs/Lib.antt`) are few enough to be read aloud, and each states what it means in a sentence.
//!
//! Each function here is empty: its contract is a law of the core, and its proof concerns no code.
//!
//! ```text
//! 1 subscribes to waiting                ok
//! 1 inserts jobs (12,2,"waiting")        the delta of waiting by change 2: inserted (2,12); then ok
//! 1 reads a page of its cursor           the page (2,12), and it is the last
//! readme_is_a_run                        so it may be, and with no other answer
//! ```
//!
//! What this crate is not: it states nothing of the program. That each step of the real machine
//! (djq_machine) is a step of the core, or none, is djq_refinement's law, and so are these laws for runs of
//! the machine.
//!
//! What surprises: the core may refuse any command and disconnect any client at any step, since it
//! knows no limits and no memory. The layers below define when the server does so. One reason has a
//! message of its own: a query that isn't free-connex.
//!
//! Inside, both laws rest on one invariant (`proofs/Sound.antt`): names are apart, and each cursor that
//! isn't stale has returned right answers. `proofs/Live.antt` follows the deltas of one client.
#![tactic(auto)]

ghost use Rattle.djq_abstract.specs.Promises.{FinishedCursorsListed, SubscribersHaveAnswers};
ghost use Rattle.djq_abstract.specs.Worked.{ReadmeHappens, ReadmeOnlySo};

/// In each state after a run that began with nobody connected: a finished cursor that no change
/// overtook has returned each answer over the present rows once, and nothing else.
pub fn finished_cursors_listed()
    ensures { FinishedCursorsListed }
{}

/// A client that has listed a query's answers and subscribes to it from then on has the answers over
/// the present rows by applying the deltas that it is sent, along every run.
pub fn subscribers_have_answers()
    ensures { SubscribersHaveAnswers }
{}

/// The session of README, reply by reply: the core has a run in which its client sends these commands
/// and is sent these replies. With another answer in the delta, or on the page, it has none.
pub fn readme_is_a_run()
    ensures happens { ReadmeHappens }
    ensures only_so { ReadmeOnlySo }
{}
