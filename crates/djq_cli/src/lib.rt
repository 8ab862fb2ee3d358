//! The words of the command line: which command they are, and what it is asked.
//!
//! [`read_words`] reads them by `clap`. By its contract, words are a command if and only if `clap` accepts
//! them for the command set of `specs/Commands.antt` and their numbers are decimal digits without a sign or
//! a leading zero. `clap` would accept both. That command set shares no code with the builder here.
//!
//! ```text
//! djq run                     Asked::Run
//! djq serve a:1 --turns 7     Asked::Serve("a:1", 7, None)
//! djq replay --log j          Asked::Replay(Some("j"))
//! djq gen 5 1                 Asked::Gen(5, 1)
//! djq gen 05 1                no command
//! djq mirror q                Asked::Mirror("q")
//! djq --help                  no command
//! ```
//!
//! What this crate is not: it prints nothing, and it doesn't run what it read. Whether an address
//! can be listened at is the hub's to report, and whether a file can be opened the disk's.
//!
//! What surprises: `clap`'s own texts aren't used, and help and version words are no command.
//! Without `--turns`, `serve` has as many turns as it may be asked for ([`MOST_TURNS`]).
//!
//! Inside, the command set is built anew for each call, and what `clap` returns, a text under a
//! name, is turned into [`Asked`]. Out of memory is an error, and words that are wrong are `None`.
#![tactic(auto)]

mod commands;

pub use commands::{Asked, LAST_SEED, MOST_CHANGES, MOST_TURNS, read_words};
