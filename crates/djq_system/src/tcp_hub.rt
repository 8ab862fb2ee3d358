ghost use Rattle.std.specs.Prelude.{◌≡◌, ◌<◌, ◌≤◌, true, false, [], ◌∷◌, Some, IfOk, IfSome, Contains, length};
ghost use Rattle.djq_io.specs.Faults.{Counted};
ghost use Rattle.djq_io.specs.Hub.{no_ids, Turns};
ghost use Rattle.djq_io.specs.HubFaults.{CountsListen, CountsTurn, SameCounts, CountsInTurn};
ghost use Rattle.djq_io.specs.Sessions.{faults_of};
ghost use Rattle.djq_io.specs.Sink.{Gains};
ghost use Rattle.djq_io.specs.declared.hub.Told.{Told};
ghost use Rattle.djq_system.specs.Tcp.{TurnsAway};

use crate::conn::{self, Conn, Found};
use crate::hub_notes::{note_close, note_listen, note_send, note_turn};
use crate::listening::{LISTENER, Listening};
use crate::notes::Notes;
use djq_io::{Class, Hub, Listened, Sent, Sessions, Turn};
use mio::{Events, Token};
use std::alloc::{AllocError, Global};
use std::io::{self, Eprint, ErrorKind};
use std::marker::Model;
use std::net::{self, Net};
use std::time::{Clock, Duration, Instant};

/// How many connections a hub has at once: those of the 64 sessions that may be open, and one more,
/// which is sent the reason and closed.
pub const PLACES: usize = 65;

/// The version that is reported as serving begins; the file `VERSION` at the top has the same.
const VERSION: &str = "0.2.0";

/// For how many milliseconds a turn waits at most.
const LONGEST_WAIT: u64 = 250;

/// How many turns there are at most before the system is asked for events again, so that no client waits to be noticed.
const MOST_TURNS: u32 = 64;

/// How many bytes these turns have before it is asked: a few thousand lines.
const MOST_BYTES: usize = 65_536;

/// After how many milliseconds without a turn or a flush the hub is late.
const LATE: u64 = 5;

/// A hub over TCP, seen as its calls so far with their answers, the ids of its sessions and its counts of faults.
///
/// Each call is a few lines over the system's. It prints to standard error its version and the address at which it
/// listens, or why it can't, and once that connections can't be accepted, which it counts. A turn waits at most a
/// quarter of a second, and then answers `Idle`. After the id 18446744073709551615 no connection is accepted any more.
#[derive(Drop)]
pub struct TcpHub<
    R: Net<Listener = net::TcpListener, Stream = net::TcpStream> + Eprint + Clock + Drop,
> {
    rt: R,
    listening: Option<Listening>,
    events: Events,
    /// The connections, by rising ids.
    conns: Vec<Conn>,
    sessions: Sessions,
    /// The place that is visited next: of a connection, or after them all of the listener.
    at: usize,
    /// Outside of the places from the one up to the other no connection has bytes, as far as the system has reported.
    ready_from: usize,
    ready_to: usize,
    /// Whether the listener may have a connection.
    knocks: bool,
    /// Whether a connection couldn't be accepted. That is tried again after the system was asked for events.
    refused: bool,
    /// Whether a place may have something, as far as the system has reported.
    some: bool,
    /// How many turns there were since the system was asked for events, and how many bytes they had.
    turns: u32,
    bytes: usize,
    /// When the last turn ended or the last flush began, if the clock could be read: lines are run after it.
    since: Option<Instant>,
    /// The session to which the last send was, or after a turn the greatest number.
    flushed: u64,
    /// Whether it was printed that no connection can be accepted, and none has been since.
    said: bool,
    /// How many connections couldn't be accepted.
    turned_away: u64,
    faults: u64,
    notes: Notes,
}

impl<R: Net<Listener = net::TcpListener, Stream = net::TcpStream> + Eprint + Clock + Drop> Model
    for TcpHub<R> {
    ghost use Rattle.std.specs.Prelude.{is_some, map};
    ghost use Rattle.djq_system.specs.HubNotes.{told_noted};
    ghost use Rattle.djq_system.specs.Tcp.{ShownByTcp};

    ghost Value = { ShownByTcp };

    ghost view = { λ h. record {
      past = map told_noted h.notes.calls;
      listens = is_some h.listening;
      ids = h.sessions.ids;
      faults = h.faults;
      turned_away = h.turned_away;
      counts = h.sessions.counts;
    } };
}

impl<R: Net<Listener = net::TcpListener, Stream = net::TcpStream> + Eprint + Clock + Drop> TcpHub<
    R,
> {
    /// A hub that doesn't listen yet, over the runtime. It allocates the memory for all places.
    pub fn new(rt: R, alloc: Global) -> Result<Self, AllocError>
        ensures past { IfOk result (λ hub. hub.past ≡ []) }
        ensures listens { IfOk result (λ hub. hub.listens ≡ false) }
        ensures ids { IfOk result (λ hub. hub.ids ≡ no_ids) }
        ensures faults { IfOk result (λ hub. hub.faults ≡ 0) }
        ensures turned_away { IfOk result (λ hub. hub.turned_away ≡ 0) }
    {
        let mut sessions = Sessions::new(alloc);
        sessions.reserve(PLACES)?;
        Ok(TcpHub {
            rt,
            listening: None,
            events: Events::with_capacity(alloc, PLACES + 1)?,
            conns: Vec::with_capacity(alloc, PLACES)?,
            sessions,
            at: 0,
            ready_from: usize::MAX,
            ready_to: 0,
            knocks: false,
            refused: false,
            some: false,
            turns: 0,
            bytes: 0,
            since: None,
            flushed: u64::MAX,
            said: false,
            turned_away: 0,
            faults: 0,
            notes: Notes::new(),
        })
    }

    /// The port at which it listens, which the system chose if the address has 0, or `None`
    /// if it doesn't listen.
    pub fn port(&self) -> Option<u16>
        ensures { IfSome result (λ _. self.now.listens ≡ true) }
    {
        match &self.listening {
            Some(listening) => listening.address().ok().map(|address| address.port()),
            None => None,
        }
    }

    /// How many connections couldn't be accepted so far.
    pub fn turned_away(&self) -> u64
        ensures { result ≡ self.now.turned_away }
    {
        self.turned_away
    }

    /// Opens a session if a connection is pending and there is a place for it. One that can't be
    /// accepted is left to the system: it may be closed, or the system may be out of descriptors. That
    /// has a count of its own, since a fault of the hub would end the serving of all others.
    fn accept(&mut self) -> Turn
        ensures past { self.new.past ≡ self.old.past }
        ensures ids { Turns result 0 self.old.ids self.new.ids }
        ensures faults { self.new.faults ≡ self.old.faults }
        ensures counts { CountsInTurn result self.old.ids.open_ids (faults_of self.old.counts)
            (faults_of self.new.counts) }
        ensures idle { result ≡ Turn.Idle → self.new ≡ record self.old { turned_away = self.new.turned_away } }
        ensures turned_away { TurnsAway result self.old.turned_away self.new.turned_away }
        ensures works { result ≡ Turn.Failed → ⊥ }
    {
        if !self.may_accept() || !self.sessions.has_room() {
            return Turn::Idle;
        }
        let Some(id) = self.sessions.next_id() else {
            self.knocks = false;
            return Turn::Idle;
        };
        let Some(listening) = &self.listening else {
            return Turn::Idle;
        };
        match listening.accept(id as usize) {
            Ok(stream) => {
                let place = self.conns.len();
                if self.conns.push(Conn::new(id, stream)).is_err() {
                    return Turn::Idle;
                }
                self.ready_from = self.ready_from.min(place);
                self.ready_to = self.conns.len();
                self.sessions.open(id);
                self.said = false;
                Turn::Opened(id, Class::Client)
            }
            Err(error) => {
                match error.kind() {
                    ErrorKind::WouldBlock => self.knocks = false,
                    ErrorKind::Interrupted => {}
                    _ => self.turn_away(error),
                }
                Turn::Idle
            }
        }
    }

    /// Whether a connection may be pending, and there is a place for it.
    fn may_accept(&self) -> bool {
        self.knocks && self.conns.len() < PLACES
    }

    /// Counts a connection that can't be accepted, and prints why for the first since one was.
    fn turn_away(&mut self, error: io::Error)
        ensures shown { self.new ≡ record self.old { turned_away = self.new.turned_away } }
        ensures counted { Counted self.old.turned_away self.new.turned_away }
    {
        if !self.said {
            self.said = true;
            let _ = eprintln!(self.rt; "djq: a connection can't be accepted: {error}");
        }
        self.turned_away = self.turned_away.saturating_add(1);
        self.knocks = false;
        self.refused = true;
    }

    /// Looks at the next place that may have something: a connection that is ready, or the listener.
    fn look(&mut self, buf: &mut [u8]) -> Turn
        requires { 0 < length buf.old }
        ensures past { self.new.past ≡ self.old.past }
        ensures ids { Turns result (length buf.new) self.old.ids self.new.ids }
        ensures faults { self.new.faults ≡ self.old.faults }
        ensures counts { CountsInTurn result self.old.ids.open_ids (faults_of self.old.counts)
            (faults_of self.new.counts) }
        ensures idle { result ≡ Turn.Idle → self.new ≡ record self.old { turned_away = self.new.turned_away } }
        ensures turned_away { TurnsAway result self.old.turned_away self.new.turned_away }
        ensures works { result ≡ Turn.Failed → ⊥ }
    {
        let from = self.at.max(self.ready_from);
        let Some(at) = conn::next_ready(&self.conns, from, self.ready_to) else {
            self.at = 0;
            return self.accept();
        };
        self.at = at + 1;
        let conn = &mut self.conns[at];
        let id = conn.id;
        if !self.sessions.is_running(id) {
            return Turn::Idle;
        }
        match conn.read(buf) {
            Found::Bytes(n) => Turn::Bytes(id, n),
            Found::Nothing => Turn::Idle,
            Found::End => {
                self.sessions.end(id);
                Turn::Ended(id)
            }
            Found::Broken => {
                self.sessions.count_fault(id);
                self.sessions.end(id);
                Turn::Ended(id)
            }
        }
    }

    /// Visits the places that may have something, in a circle, until one has or none may.
    fn go_round(&mut self, buf: &mut [u8]) -> Turn
        requires { 0 < length buf.old }
        ensures past { self.new.past ≡ self.old.past }
        ensures ids { Turns result (length buf.new) self.old.ids self.new.ids }
        ensures faults { self.new.faults ≡ self.old.faults }
        ensures counts { CountsInTurn result self.old.ids.open_ids (faults_of self.old.counts)
            (faults_of self.new.counts) }
        ensures idle { result ≡ Turn.Idle → self.new ≡ record self.old { turned_away = self.new.turned_away } }
        ensures turned_away { self.old.turned_away ≤ self.new.turned_away }
        ensures works { result ≡ Turn.Failed → ⊥ }
    {
        for _ in 0..=self.conns.len() {
            match self.look(buf) {
                Turn::Idle => {
                    if !self.has_some() {
                        return Turn::Idle;
                    }
                }
                turn => return turn,
            }
        }
        Turn::Idle
    }

    /// Counts a fault of the hub itself, prints it, and answers so.
    fn fail(&mut self, error: io::Error) -> Turn
        ensures failed { result ≡ Turn.Failed }
        ensures shown { self.new ≡ record self.old { faults = self.new.faults } }
        ensures counted { Counted self.old.faults self.new.faults }
    {
        let _ = eprintln!(self.rt; "djq: the listener failed: {error}");
        self.faults = self.faults.saturating_add(1);
        Turn::Failed
    }

    /// Whether a connection may have bytes, or may be accepted.
    fn has_some(&self) -> bool {
        self.may_accept() || conn::next_ready(&self.conns, self.ready_from, self.ready_to).is_some()
    }

    /// Notes the events that the system reports. If no place may have something, it waits for one.
    fn wait(&mut self) -> io::Result<()>
        ensures { self.new ≡ self.old }
    {
        let millis = if self.some { 0 } else { LONGEST_WAIT };
        let Some(listening) = &mut self.listening else {
            return Ok(());
        };
        listening.wait(&mut self.events, millis)?;
        self.turns = 0;
        self.bytes = 0;
        self.knocks |= self.refused;
        self.refused = false;
        for event in self.events.iter() {
            let Token(token) = event.token();
            if token == LISTENER {
                self.knocks = true;
            } else if let Some(at) = conn::note(&mut self.conns, token as u64, event) {
                self.ready_from = self.ready_from.min(at);
                self.ready_to = self.ready_to.max(at.saturating_add(1));
            }
        }
        Ok(())
    }

    /// Returns what a place has, after asking the system for events if the turn isn't at hand.
    fn take_turn(&mut self, buf: &mut [u8]) -> Turn
        requires { 0 < length buf.old }
        ensures past { self.new.past ≡ self.old.past }
        ensures ids { Turns result (length buf.new) self.old.ids self.new.ids }
        ensures faults { CountsTurn result self.old.faults self.new.faults }
        ensures counts { CountsInTurn result self.old.ids.open_ids (faults_of self.old.counts)
            (faults_of self.new.counts) }
    {
        if self.listening.is_none() {
            return Turn::Over;
        }
        if !self.at_hand() {
            if let Err(error) = self.wait() {
                return self.fail(error);
            }
        }
        let turn = self.go_round(buf);
        self.some = self.has_some();
        if !self.some {
            self.ready_from = usize::MAX;
            self.ready_to = 0;
        }
        self.turns = self.turns.saturating_add(1);
        if let Turn::Bytes(_, n) = turn {
            self.bytes = self.bytes.saturating_add(n);
        }
        turn
    }
}

impl<R: Net<Listener = net::TcpListener, Stream = net::TcpStream> + Eprint + Clock + Drop> Hub
    for TcpHub<R> {
    ghost use Rattle.std.specs.Prelude.{Some, None};
    ghost use Rattle.djq_io.specs.Sessions.{faults_of};

    ghost script = { λ _. None };

    ghost past = { λ h. Some h.past };

    ghost ids = { λ h. h.ids };

    ghost faults = { λ h. h.faults };

    ghost session_faults = { λ h. faults_of h.counts };

    fn listen(&mut self, addr: &str) -> Listened
        ensures past { Gains (Some self.old.past) (Some self.new.past) (Told.Listening addr.now result ∷ []) }
        ensures listens { result ≡ Listened.Ready → self.new.listens ≡ true }
        ensures ids { self.new.ids ≡ self.old.ids }
        ensures faults { CountsListen result self.old.faults self.new.faults }
        ensures sessions { SameCounts self.old.ids.open_ids (faults_of self.old.counts) (faults_of self.new.counts) }
    {
        match Listening::at(&self.rt, addr) {
            Ok(listening) => {
                if let Ok(address) = listening.address() {
                    let _ = eprintln!(self.rt; "djq {VERSION}: listening on {address}");
                }
                self.listening = Some(listening);
                self.knocks = true;
                note_listen(&mut self.notes, addr, Listened::Ready);
                Listened::Ready
            }
            Err(error) => {
                let _ = eprintln!(self.rt; "djq: can't listen on {addr}: {error}");
                self.faults = self.faults.saturating_add(1);
                note_listen(&mut self.notes, addr, Listened::Failed);
                Listened::Failed
            }
        }
    }

    fn turn(&mut self, buf: &mut [u8]) -> Turn {
        let turn = self.take_turn(buf);
        note_turn(&mut self.notes, turn, buf);
        self.since = Instant::now(&self.rt).ok();
        self.flushed = u64::MAX;
        turn
    }

    #[inline(always)]
    fn send(&mut self, id: u64, piece: &[u8]) -> Sent {
        // If clients don't read, a flush visits many that are full, one after the other.
        if self.flushed < id && conn::is_full(&self.conns, id) {
            self.flushed = id;
            note_send(&mut self.notes, id, piece, Sent::Again);
            return Sent::Again;
        }
        let sent = conn::send(&mut self.conns, id, piece);
        note_send(&mut self.notes, id, piece, sent);
        // A flush sends by rising ids, so with this one another has begun. The clock isn't read for each session.
        if id <= self.flushed {
            self.since = Instant::now(&self.rt).ok();
        }
        self.flushed = id;
        if sent == Sent::Gone {
            self.sessions.count_fault(id);
        }
        sent
    }

    fn at_hand(&self) -> bool {
        self.some && self.turns < MOST_TURNS && self.bytes < MOST_BYTES
    }

    fn is_late(&self) -> bool {
        match &self.since {
            Some(since) => match since.elapsed(&self.rt) {
                Ok(elapsed) => Duration::from_millis(LATE) <= elapsed,
                Err(_) => false,
            },
            None => false,
        }
    }

    fn close(&mut self, id: u64) {
        conn::close(&mut self.conns, id);
        note_close(&mut self.notes, id);
        // The places after it move down by one.
        self.ready_from = self.ready_from.saturating_sub(1);
        self.sessions.close(id);
        self.some = self.has_some();
    }
}
