ghost use Rattle.std.specs.Prelude.{◌≡◌};
ghost use Rattle.djq_run.specs.Number.{exit_number};

/// How the program ends.
#[derive(Clone, Copy, Debug, PartialEq, Eq)]
pub enum Status {
    /// 0: the input was read to its end, or its session asked for the end.
    Done,
    /// 1: the words of the command line are no command.
    Usage,
    /// 2: a read failed.
    ReadFault,
    /// 3: a write failed.
    WriteFault,
    /// 4: the hub of sessions failed.
    HubFault,
    /// 5: all turns were used.
    TurnsUsed,
    /// 6: out of memory.
    NoMemory,
    /// 7: this line of the schedule, counted from 1, is outside its grammar.
    Schedule(u64),
    /// 8: the session was ended by a line that was too long, or by too many pending bytes.
    SessionEnded,
    /// 9: the disk of the log failed.
    DiskFault,
    /// 10: the log has no room for a line.
    LogFull,
    /// 11: the file isn't a log that can be loaded, from this place in it on.
    BadLog(u64),
    /// 12: this line of what a session was sent, counted from 1, isn't one that a mirror can follow.
    Mirror(u64),
}

impl Status {
    /// The number with which the process ends.
    pub fn number(self) -> u8
        ensures { result ≡ exit_number self }
    {
        match self {
            Status::Done => 0,
            Status::Usage => 1,
            Status::ReadFault => 2,
            Status::WriteFault => 3,
            Status::HubFault => 4,
            Status::TurnsUsed => 5,
            Status::NoMemory => 6,
            Status::Schedule(_) => 7,
            Status::SessionEnded => 8,
            Status::DiskFault => 9,
            Status::LogFull => 10,
            Status::BadLog(_) => 11,
            Status::Mirror(_) => 12,
        }
    }
}
