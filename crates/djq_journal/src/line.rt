/// The answer to a question for the next line.
#[derive(Clone, Copy, Debug, PartialEq, Eq)]
pub enum Line {
    /// So many bytes of the buffer are the line.
    Got(usize),
    /// There is no further line: the journal is idle.
    End,
    /// The file is bad at this place, at which a gate is required, and after an open gate a record.
    BadLog(u64),
    Failed,
}
