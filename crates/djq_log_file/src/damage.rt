/// Why there is no record at a gate's place.
#[derive(Clone, Copy, Debug, PartialEq, Eq)]
pub enum Damage {
    /// The file ends before the record does, or before its gate.
    Cut,
    /// What is stored as the length of its body is none.
    Length,
    /// Its body isn't lines.
    Lines,
    /// Its digest isn't that of its body after what precedes it.
    Digest,
}
