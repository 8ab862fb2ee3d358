/// The answer to a read.
#[derive(Clone, Copy, Debug, PartialEq, Eq)]
pub enum Read {
    /// So many bytes are at the start of the buffer, at least 1.
    Got(usize),
    /// No bytes are left.
    End,
    /// The read failed, and removed nothing.
    Failed,
}

/// The origin of bytes.
pub trait Source {
    ghost use Rattle.std.specs.Prelude.{◌≡◌, ℕ, ◌<◌, ◌≤◌, List, length, Option};
    ghost use Rattle.djq_io.specs.Source.{SourceReading, SourceReads, CountsRead};

    // The bytes that are left and the pieces that were given, if the source shows them. One may show
    // them no longer after a read.
    ghost told: { Self → Option SourceReading };

    // How many faults it has met.
    ghost faults: { Self → ℕ };

    /// Reads some bytes into the start of the buffer. The buffer may change after them too.
    fn read(&mut self, buf: &mut [u8]) -> Read
        requires { 0 < length buf.old }
        ensures reads { SourceReads result (told self.old) (told self.new) buf.new }
        ensures faults { CountsRead result (faults self.old) (faults self.new) };
}
