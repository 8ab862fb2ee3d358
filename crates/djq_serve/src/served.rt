/// How serving a hub ended.
#[derive(Clone, Copy, Debug, PartialEq, Eq)]
pub enum Served {
    /// A session sent `stop`.
    Stopped,
    /// Nothing more will arrive.
    Over,
    /// All turns were used.
    TurnsUsed,
    /// The hub failed.
    HubFault,
    /// The disk failed as a commit was logged. Nothing of it was sent.
    DiskFault,
    /// The log had no room for a commit. Nothing of it was sent.
    LogFull,
}
