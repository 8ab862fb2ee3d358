ghost use Rattle.std.specs.Prelude.{◌≡◌, false, IfOk, map};
ghost use Rattle.clap.specs.declared.builder.command.Command.TheViews.{out-Command as fields_of};
ghost use Rattle.clap.specs.Words.{app_of, first_of, found_of, rows_of, subcommand_rows_of};
ghost use Rattle.djq_cli.specs.Commands.{serve_app, replay_app, gen_app, mirror_app, djq_app};
ghost use Rattle.djq_cli.specs.Asks.{AskedBy, ServeAsked, GenAsked, MirrorAsked, TextReadsAs, NumberIsRead, WordsAsk};

use clap::builder::ValueParser;
use clap::error::ErrorKind;
use clap::{Arg, ArgMatches, Command};
use djq_value::is_name;
use itoa::Buffer;
use std::alloc::{AllocError, Global};

/// The most turns that `serve` may be asked for, and the number that it has if it isn't asked for any.
pub const MOST_TURNS: u64 = 9_223_372_036_854_775_807;

/// The most changes of a generated load.
pub const MOST_CHANGES: u64 = 1_000_000;

/// The greatest seed of a generated load.
pub const LAST_SEED: u64 = 2_147_483_647;

/// What the words of the command line ask for.
#[derive(Clone, Copy, Debug)]
pub enum Asked<'a> {
    /// `run`: one session, from the source to the sink.
    Run,
    /// `serve ADDR [--turns N] [--log PATH]`: the sessions that connect to this address, for so many
    /// turns, with the log at this path, if there is one.
    Serve(&'a str, u64, Option<&'a str>),
    /// `replay [--log PATH]`: the sessions of a schedule, which is read from the source.
    Replay(Option<&'a str>),
    /// `gen N SEED`: a generated load of so many changes, from this seed.
    Gen(u32, u32),
    /// `mirror Q`: the answers of the query of this name, by what a session was sent, which is read
    /// from the source.
    Mirror(&'a str),
}

/// The command `serve`.
fn serve_command<'a>(alloc: Global) -> Result<Command<'a>, AllocError>
    ensures app { IfOk result (λ c. app_of c ≡ serve_app) }
    ensures local { IfOk result (λ c. (fields_of c).has_globals ≡ false) }
{
    let addr = Arg::new(alloc, "ADDR").required(true);
    let turns = Arg::new(alloc, "turns")
        .long("turns")
        .value_parser(ValueParser::unsigned(1, MOST_TURNS));
    let log = Arg::new(alloc, "log").long("log");
    Command::new(alloc, "serve").arg(addr)?.arg(turns)?.arg(log)
}

/// The command `replay`.
fn replay_command<'a>(alloc: Global) -> Result<Command<'a>, AllocError>
    ensures app { IfOk result (λ c. app_of c ≡ replay_app) }
    ensures local { IfOk result (λ c. (fields_of c).has_globals ≡ false) }
{
    let log = Arg::new(alloc, "log").long("log");
    Command::new(alloc, "replay").arg(log)
}

/// The command `gen`.
fn gen_command<'a>(alloc: Global) -> Result<Command<'a>, AllocError>
    ensures app { IfOk result (λ c. app_of c ≡ gen_app) }
    ensures local { IfOk result (λ c. (fields_of c).has_globals ≡ false) }
{
    let changes = Arg::new(alloc, "N")
        .required(true)
        .value_parser(ValueParser::unsigned(1, MOST_CHANGES));
    let seed = Arg::new(alloc, "SEED")
        .required(true)
        .value_parser(ValueParser::unsigned(0, LAST_SEED));
    Command::new(alloc, "gen").arg(changes)?.arg(seed)
}

/// The command `mirror`.
fn mirror_command<'a>(alloc: Global) -> Result<Command<'a>, AllocError>
    ensures app { IfOk result (λ c. app_of c ≡ mirror_app) }
    ensures local { IfOk result (λ c. (fields_of c).has_globals ≡ false) }
{
    let query = Arg::new(alloc, "Q").required(true);
    Command::new(alloc, "mirror").arg(query)
}

/// The command set.
fn djq_command<'a>(alloc: Global) -> Result<Command<'a>, AllocError>
    ensures app { IfOk result (λ c. app_of c ≡ djq_app) }
    ensures local { IfOk result (λ c. (fields_of c).has_globals ≡ false) }
{
    let serve = serve_command(alloc)?;
    let replay = replay_command(alloc)?;
    let load = gen_command(alloc)?;
    let mirror = mirror_command(alloc)?;
    let bare = Command::new(alloc, "djq")
        .disable_help_flag(true)
        .disable_version_flag(true)
        .disable_help_subcommand(true)
        .subcommand_required(true);
    bare.subcommand(Command::new(alloc, "run"))?
        .subcommand(serve)?
        .subcommand(replay)?
        .subcommand(load)?
        .subcommand(mirror)
}

/// What these words ask for, of which the first is the program's name, or `None` if they are no
/// command. A number is its decimal digits, without a sign or a leading zero.
///
/// # Errors
///
/// `AllocError` out of memory.
pub fn read_words<'a>(alloc: Global, words: &'a [&'a str]) -> Result<Option<Asked<'a>>, AllocError>
    ensures { IfOk result (WordsAsk (map (λ word. word.now) words.entry.now)) }
{
    let command = djq_command(alloc)?;
    match command.try_get_matches_from(words) {
        Ok(matches) => Ok(asked_by(&matches)),
        Err(error) => match error.kind() {
            ErrorKind::OutOfMemory => Err(AllocError),
            _ => Ok(None),
        },
    }
}

/// What the subcommand that a parse found asks for.
fn asked_by<'a>(matches: &ArgMatches<'a>) -> Option<Asked<'a>>
    ensures { AskedBy (subcommand_rows_of matches.now) result }
{
    let (name, inner) = matches.subcommand()?;
    match name {
        "run" => Some(Asked::Run),
        "serve" => serve_asked(inner),
        "replay" => Some(Asked::Replay(inner.get_str("log"))),
        "gen" => gen_asked(inner),
        "mirror" => mirror_asked(inner),
        _ => None,
    }
}

/// What `serve` asks for, by what it was given.
fn serve_asked<'a>(given: &ArgMatches<'a>) -> Option<Asked<'a>>
    ensures { ServeAsked (rows_of (found_of given.now)) result }
{
    let addr = given.get_str("ADDR")?;
    let log = given.get_str("log");
    let Some(text) = given.get_str("turns") else {
        return Some(Asked::Serve(addr, MOST_TURNS, log));
    };
    match number_in(text) {
        Some(turns) => Some(Asked::Serve(addr, turns, log)),
        None => None,
    }
}

/// What `gen` asks for, by what it was given.
fn gen_asked<'a>(given: &ArgMatches<'a>) -> Option<Asked<'a>>
    ensures { GenAsked (rows_of (found_of given.now)) result }
{
    let Some(changes) = number_given(given, "N") else {
        return None;
    };
    match number_given(given, "SEED") {
        Some(seed) => Some(Asked::Gen(changes, seed)),
        None => None,
    }
}

/// What `mirror` asks for, by what it was given: its query is a name.
fn mirror_asked<'a>(given: &ArgMatches<'a>) -> Option<Asked<'a>>
    ensures { MirrorAsked (rows_of (found_of given.now)) result }
{
    let query = given.get_str("Q")?;
    if is_name(query.as_bytes()) {
        Some(Asked::Mirror(query))
    } else {
        None
    }
}

/// The number that was given under a name, if there is one of 32 bits.
fn number_given<'a>(given: &ArgMatches<'a>, name: &str) -> Option<u32>
    ensures { NumberIsRead (first_of name.now (rows_of (found_of given.now))) result }
{
    let Some(text) = given.get_str(name) else {
        return None;
    };
    let Some(number) = number_in(text) else {
        return None;
    };
    match u32::try_from(number) {
        Ok(number) => Some(number),
        Err(_) => None,
    }
}

/// The number whose decimal digits the text is. `clap` accepts a sign and leading zeros before them;
/// these are no number here.
fn number_in(text: &str) -> Option<u64>
    ensures { TextReadsAs text.now result }
{
    let Ok(number) = text.parse::<u64>() else {
        return None;
    };
    let mut digits = Buffer::new();
    if digits.format(number) == text {
        Some(number)
    } else {
        None
    }
}
