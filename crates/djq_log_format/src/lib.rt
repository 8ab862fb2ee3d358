//! The second format of the log: groups of lines, each a record with a digest that is carried on from record to
//! record, so that a start knows when a log is damaged.
//!
//! A file begins with a header of 8 bytes, which the records of the groups follow. A record is a gate of one
//! byte, 257 times the length of its body in eight bytes, the digest in eight bytes, and the body: each line
//! after its length in two bytes. Numbers have their greatest byte first. The gate of a record is open, which is any
//! byte but 0, and is written as 255; a closed gate, 0, ends the list, and what follows it doesn't count.
//!
//! ```text
//! place  0        8    9                 17                         25   27         36
//! bytes  DJQLOG2  255  0 0 0 0 0 0 11 11 13 157 200 107 208 142 127 110  0 9  rel r int  255 ..
//! ```
//!
//! The digest reads the body by words of eight bytes: it is multiplied by an odd number, the word is added, modulo 2^64, and
//! its halves are exchanged. Each is one to one, so a change within one byte gives another digest, whatever precedes it and
//! follows it. The halves are exchanged since a product carries a change to higher bits alone. It doesn't restart at a record:
//! so a record is one only after those that preceded it when it was written. A length is stored as 257 times itself, and no
//! change within one byte leaves it a multiple of 257: so a reader refuses a wrong length before it uses it.
//!
//! [`Measure`] measures the lines of a group and encodes the head of its record, [`encode_line`] encodes a line,
//! and [`Digest`] is the digest over pieces. [`decode_length`] and [`decode_digest`] read what a head stores. None of them allocates.
//!
//! `djq_log_file` reads and appends the records over a disk. A log of the first format, which `djq_journal` reads and
//! appends, has no digests.
//!
//! What it isn't for: it doesn't interpret lines. A digest is no protection against somebody who writes the log on purpose.
//!
//! What surprises: an open gate that is changed to 0 ends the list, and all after it is lost in silence.
//! No flip of one bit does that to 255.
//!
//! To read first: `specs/Format.antt`, which bytes a log has, and `specs/Laws.antt`, what follows from that.
#![tactic(auto)]

mod decoding;
mod digest;
mod encoding;

ghost use Rattle.std.specs.Prelude.{ℕ, List};
ghost use Rattle.djq_log_format.specs.Digest.{DigestsInPieces, ByteIsSeen};
ghost use Rattle.djq_log_format.specs.Laws.{LogOpensOnce, RecordStandsOnce, CutIsSeen, ChangeIsSeen, OpenGateIsFree};
ghost use Rattle.djq_log_format.specs.Example.{ExampleIsClosedWhole};

pub use decoding::{decode_digest, decode_length};
pub use digest::Digest;
pub use encoding::{Measure, encode_line};

/// A digest over pieces is that of all their bytes.
pub fn a_digest_is_of_all_bytes()
    ensures { DigestsInPieces }
{}

/// A digest sees a change within one byte.
pub fn a_changed_byte_is_seen()
    ensures { ByteIsSeen }
{}

/// A file opens to one list of groups, so different lists have different bytes.
pub fn a_file_opens_once()
    ensures { LogOpensOnce }
{}

/// At a gate's place there is one record at most, and if there is one the list doesn't end.
pub fn a_record_stands_once()
    ensures { (digest : ℕ) (rest : List ℕ) → RecordStandsOnce digest rest }
{}

/// A changed byte of a record, after its gate, is refused at that gate.
pub fn a_changed_record_is_refused()
    ensures { ChangeIsSeen }
{}

/// A gate that stays open has the same record after it.
pub fn an_open_gate_may_be_any()
    ensures { OpenGateIsFree }
{}

/// A log that is cut has a first part of its groups, and is refused at the gate after them.
pub fn a_cut_log_is_refused()
    ensures { CutIsSeen }
{}

/// The worked example is closed whole.
pub fn the_example_is_closed_whole()
    ensures { ExampleIsClosedWhole }
{}
