ghost use Rattle.std.specs.Prelude.{◌≡◌, ◌<◌, [], ◌∷◌, ◌++◌, length};
ghost use Rattle.djq_io.specs.Source.{SourceReads, CountsRead};
ghost use Rattle.djq_system.specs.StdSource.{CountsOneRead, reading_of_reads, bytes_given};
ghost use Rattle.djq_system.specs.InputTold.{SomeInputIsTold};

use crate::notes::Notes;
use crate::oracle::Oracle;
use djq_io::{Read, Source};
use std::io;
use std::marker::{Model, PhantomData};

/// A reader of `std::io` as a source, seen as its reads with their answers and its count of faults. It shows the reading
/// of a reader that has the bytes of the oracle, as long as it reads as such a one.
///
/// Each read is one read of the reader, into the buffer that was passed. What fails is counted and
/// not tried again: [`StandardInput`](crate::StandardInput) is a reader that a signal doesn't fail.
#[derive(Debug, Drop)]
pub struct StdSource<R: io::Read + Drop, O: Oracle> {
    reader: R,
    oracle: PhantomData<O>,
    faults: u64,
    notes: Notes,
}

impl<R: io::Read + Drop, O: Oracle> Model for StdSource<R, O> {
    ghost use Rattle.std.specs.Prelude.{map};
    ghost use Rattle.djq_system.specs.StdSource.{ShownByReader, source_read_noted};

    ghost Value = { ShownByReader };

    ghost view = { λ s. record { reads = map source_read_noted s.notes.calls; faults = s.faults } };
}

impl<R: io::Read + Drop, O: Oracle> StdSource<R, O> {
    /// A source over the reader, which nothing was read from yet.
    pub fn new(reader: R) -> Self
        ensures { result ≡ record { reads = []; faults = 0 } }
    {
        StdSource {
            reader,
            oracle: PhantomData,
            faults: 0,
            notes: Notes::new(),
        }
    }
}

impl<R: io::Read + Drop, O: Oracle> Source for StdSource<R, O> {
    ghost use Rattle.djq_system.specs.StdSource.{reading_of_reads};

    ghost told = { λ s. reading_of_reads O.input s.reads };

    ghost faults = { λ s. s.faults };

    #[tactic(auto, using(crate::proofs::SourceReadings::ends_so, crate::proofs::SourceReadings::fails_so))]
    fn read(&mut self, buf: &mut [u8]) -> Read
        requires { 0 < length buf.old }
        ensures notes { self.new.reads
            ≡ self.old.reads ++ record { answer = result; gave = bytes_given result buf.new } ∷ [] }
        ensures reads { SourceReads result (reading_of_reads O.input self.old.reads)
            (reading_of_reads O.input self.new.reads) buf.new }
        ensures faults { CountsRead result self.old.faults self.new.faults }
        ensures one { CountsOneRead result self.old.faults self.new.faults }
    {
        match self.reader.read(buf) {
            Ok(0) => {
                self.notes.note(&[1], &[]);
                Read::End
            }
            Ok(n) => {
                self.notes.note(&[0, n as u64], &buf[..n]);
                Read::Got(n)
            }
            Err(_) => {
                self.notes.note(&[2], &[]);
                self.faults = self.faults.saturating_add(1);
                Read::Failed
            }
        }
    }
}

/// Whatever a reader answers until it finds the end, for one input a source over it shows its reading: for the bytes that
/// the reads gave.
pub fn some_input_is_told()
    ensures { SomeInputIsTold }
{}
