//! What `djq run` and `djq serve` do is a run of the abstract core.
//!
//! The one function is empty: its contract is the law, and its proof concerns no code. What `run_program`
//! promises of `run` and `serve` (`Serves`, `ServesHub`) is its premise, so it holds of the program.
//!
//! ```text
//! ServesHub            the program, the hub that it served and the disk
//! serves.ends.goes     its moves, of which the steps are a run of the machine
//! RefinesRun           and up to each state a run of the core, with the messages that its bytes spell
//! ```
//!
//! What this crate is not: the law that each step of the machine is one of the core's is djq_refinement's,
//! and what the core promises is djq_abstract's.
//!
//! What surprises: the law is of each state that a run passed through, and not of the last alone, since
//! every session is closed at the end of `serve`.
#![tactic(auto)]

ghost use Rattle.djq_program_refinement.specs.ProgramRuns.{RunMakesCoreRuns, ServeMakesCoreRuns};

/// However `run` and `serve` end: the steps of the machine that they made, up to each state that they
/// passed through, are a run of the core. To each session that goes on there the core sends the messages
/// that all bytes queued to it spell.
pub fn program_refines_core()
    ensures run { RunMakesCoreRuns }
    ensures serve { ServeMakesCoreRuns }
{}
