/// What is left to do of a round after its lines were run.
#[derive(Clone, Copy, Debug, PartialEq, Eq)]
pub(crate) enum Rest {
    /// No more.
    Nothing,
    /// The input of this session ended.
    Ends(u64),
    /// Nothing more will arrive.
    Over,
    /// The hub failed: no line of the round is run.
    Failed,
}
