//! Commands on what a session watches.
ghost use Rattle.std.specs.Prelude.{◌≡◌, false};
ghost use Rattle.djq_protocol.specs.declared.command.Command.TheVariants.{Watch, Unwatch};
ghost use Rattle.djq_commands.specs.Performs.{Executes};
ghost use Rattle.djq_commands.specs.Sound.{IsOwn, CommandIsReady};
ghost use Rattle.djq_commands.specs.Watches.{BeginsWatch, CeasesWatch};

use djq_model::Name;
use djq_protocol::Refusal;
use djq_session::Session;
use djq_store::{CursorId, Store};

/// `watch`: from now on the session is sent how the answers of a query change.
pub(crate) fn run_watch(engine: &mut Store, session: &mut Session<CursorId, Name>, query: &Name)
    requires { CommandIsReady engine.old session.old }
    ensures { Executes (Watch query.now) false engine.old session.old engine.new session.new 0 0 }
{
    let outcome = begin_watch(engine, session, query);
    session.answer_watched(outcome, engine.seq());
}

/// The session begins to watch a query, if that is registered and isn't watched yet.
fn begin_watch(
    engine: &mut Store,
    session: &mut Session<CursorId, Name>,
    query: &Name,
) -> Result<(), Refusal>
    requires { IsOwn engine.old session.old }
    ensures { BeginsWatch engine.old session.old query.now result engine.new session.new }
{
    engine.laws();
    let Some(id) = engine.query_id(query) else {
        return Err(Refusal::NoQuery);
    };
    if session.watches(*query) {
        return Ok(());
    }
    if session.watch(*query).is_err() {
        return Err(Refusal::NoMemory);
    }
    engine.watch(id);
    Ok(())
}

/// `unwatch`: from now on the session is no longer sent how the answers of a query change.
pub(crate) fn run_unwatch(engine: &mut Store, session: &mut Session<CursorId, Name>, query: &Name)
    requires { CommandIsReady engine.old session.old }
    ensures { Executes (Unwatch query.now) false engine.old session.old engine.new session.new 0 0 }
{
    let outcome = cease_watch(engine, session, query);
    session.answer_done(outcome);
}

/// The session ceases to watch a query, if it watched it.
fn cease_watch(
    engine: &mut Store,
    session: &mut Session<CursorId, Name>,
    query: &Name,
) -> Result<(), Refusal>
    requires { IsOwn engine.old session.old }
    ensures { CeasesWatch engine.old session.old query.now result engine.new session.new }
{
    engine.laws();
    let Some(id) = engine.query_id(query) else {
        return Err(Refusal::NoQuery);
    };
    if session.watches(*query) {
        session.unwatch(*query);
        engine.unwatch(id);
    }
    Ok(())
}
