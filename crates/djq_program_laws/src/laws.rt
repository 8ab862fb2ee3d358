ghost use Rattle.djq_program_laws.specs.Finished.{FinishedCursors};
ghost use Rattle.djq_program_laws.specs.Live.{RunIsLive, ServeIsLive};
ghost use Rattle.djq_program_laws.specs.ReadBack.{RunIsReadBack, ServeIsReadBack, RunMomentsAreReadBack, ServeMomentsAreReadBack};
ghost use Rattle.djq_program_laws.specs.Reopened.{LogsReopen};
ghost use Rattle.djq_program_laws.specs.Moments.{MomentsReopen};

/// At each moment of a run of the program, an open cursor whose `end` was queued had listed every
/// answer of its query over the rows that were present then, each once, and nothing else.
///
/// It is empty: its contract is a law of what the program promises of its end.
pub fn finished_cursors_have_listed()
    ensures { FinishedCursors }
{}

/// A session has listed a query through a cursor, and watches it. From each moment of a run of the
/// program on it has the answers over the present rows by adding up what is queued to it.
pub fn run_stays_live()
    ensures { RunIsLive }
{}

/// So it is with each session that the program serves.
pub fn serve_stays_live()
    ensures { ServeIsLive }
{}

/// `mirror` refuses nothing of what a run of the program wrote that let its session watch a query and read
/// it through one cursor at a time. The answers that it writes in the end are those over the present rows,
/// or over the rows that were present as the session's input ended.
pub fn run_is_read_back()
    ensures end { RunIsReadBack }
    ensures moments { RunMomentsAreReadBack }
{}

/// The same holds of each session that the program serves, and of the bytes that the hub accepted for it.
pub fn serve_is_read_back()
    ensures end { ServeIsReadBack }
    ensures moments { ServeMomentsAreReadBack }
{}

/// What a crash leaves of a log after the program's end opens to lines that, loaded, give the state
/// after a first part of the lines that the run logged. That part ends with a commit, and has each line
/// that was answered: all of them, or all but those of the last commit if the log failed.
pub fn logs_reopen()
    ensures { LogsReopen }
{}

/// What a crash leaves of a log at any moment of serving opens to lines that, loaded, give the state after a
/// first part of the lines that the run logs. That part has each line that was answered by then: those of every
/// commit that was appended before.
pub fn moments_reopen()
    ensures { MomentsReopen }
{}
