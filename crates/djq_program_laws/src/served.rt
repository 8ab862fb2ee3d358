//! Laws of every serving: of `serve` and of `replay` alike, with a log and without.

ghost use Rattle.djq_program_laws.specs.Served.{OfServing, OfServe, OfReplay, HaveListed, StayLive, AreReadBack};

/// At each moment of serving, an open cursor whose `end` was queued had listed every answer of its
/// query over the rows that were present then, each once, and nothing else. This holds of `serve` and of
/// `replay`.
///
/// It is empty: its contract is a law of what the program promises of its end.
pub fn served_cursors_have_listed()
    ensures every { OfServing HaveListed }
    ensures serve { OfServe HaveListed }
    ensures replay { OfReplay HaveListed }
{}

/// From each moment of serving on, a session that has listed a query through a cursor, and watches it,
/// has the answers over the present rows by adding up what is queued to it. This holds of `serve` and
/// of `replay`.
pub fn served_stay_live()
    ensures every { OfServing StayLive }
    ensures serve { OfServe StayLive }
    ensures replay { OfReplay StayLive }
{}

/// A session watched a query and read it through one cursor at a time, and was sent all that was queued to
/// it. At each moment of serving, and at its end, `mirror` refuses nothing of what was sent to that session.
/// The answers that it writes are those over the present rows, or over the rows that were present as the
/// session's input ended. This holds of `serve` and of `replay`.
pub fn served_are_read_back()
    ensures every { OfServing AreReadBack }
    ensures serve { OfServe AreReadBack }
    ensures replay { OfReplay AreReadBack }
{}
