ghost use Rattle.std.specs.Prelude.{◌≡◌, ℕ, ◌<◌, true, length, IfSome};
ghost use Rattle.djq_io.specs.Hub.{Takes};
ghost use Rattle.djq_system.specs.Found.{FoundFits};

use crate::request::{Beginning, beginning_of};
use djq_io::Sent;
use mio::event::Event;
use mio::net::TcpStream;
use std::io::{self, ErrorKind, Read, Write};
use std::net::Shutdown;

/// The connection of a session.
#[derive(Drop)]
pub(crate) struct Conn {
    pub id: u64,
    stream: TcpStream,
    /// Whether it may have bytes. A read of all that there is clears it, and an event of the system sets it
    /// again.
    pub ready: bool,
    /// Whether its input has ended, so that nothing is read any more.
    ended: bool,
    /// Whether its first line was looked at, which is no request of HTTP.
    heard: bool,
    /// Whether the client sends no more, so that a line that isn't whole stays so.
    over: bool,
    /// Whether the last send wrote nothing. The system reports when bytes can be sent again, and no call is
    /// made before that: a client that doesn't read costs the others no call of the system.
    full: bool,
}

/// What a read of a connection found.
#[derive(Clone, Copy, Debug, PartialEq, Eq)]
pub(crate) enum Found {
    Bytes(usize),
    End,
    Nothing,
    Broken,
}

/// How many pieces are read and dropped at most as a connection is closed, so that a client that continues
/// to send can't hold the server.
const MOST_READ_AWAY: u32 = 64;

impl Conn {
    /// The connection of a session with this id, which may have bytes.
    pub(crate) fn new(id: u64, stream: TcpStream) -> Self {
        Conn {
            id,
            stream,
            ready: true,
            ended: false,
            heard: false,
            over: false,
            full: false,
        }
    }

    /// Reads what the client sent, once its first line was looked at.
    pub(crate) fn read(&mut self, buf: &mut [u8]) -> Found
        ensures { FoundFits result (length buf.new) }
    {
        let found = if self.heard {
            self.take(buf)
        } else {
            self.begin(buf)
        };
        if found == Found::End || found == Found::Broken {
            self.ended = true;
            self.ready = false;
        }
        found
    }

    /// Reads what the client sent. If that is less than there is room for, the system has no more, and reports what
    /// arrives later: no further read finds that out. That the client sends no more is reported once, perhaps
    /// before this read.
    fn take(&mut self, buf: &mut [u8]) -> Found
        ensures { FoundFits result (length buf.new) }
    {
        match self.stream.read(buf) {
            Ok(0) => Found::End,
            Ok(n) => {
                self.ready = n == buf.len() || self.over;
                Found::Bytes(n)
            }
            Err(error) => self.found_none(error),
        }
    }

    /// Looks at the first line as a whole, and leaves it with the system until it is. A connection
    /// that begins with a request of HTTP has ended: a web page can send such a request to any port
    /// of its reader's machine, with lines of the protocol in it.
    #[inline(never)]
    fn begin(&mut self, buf: &mut [u8]) -> Found
        ensures { FoundFits result (length buf.new) }
    {
        let count = match self.stream.peek(buf) {
            Ok(0) => return Found::End,
            Ok(count) => count,
            Err(error) => return self.found_none(error),
        };
        match beginning_of(&buf[..count]) {
            Beginning::EmptyLines(end) => self.take(&mut buf[..end]),
            Beginning::Request => Found::End,
            Beginning::Part if !self.over && count < buf.len() => {
                self.ready = false;
                Found::Nothing
            }
            Beginning::Part | Beginning::Line => {
                self.heard = true;
                self.take(buf)
            }
        }
    }

    /// What a read found that failed so.
    fn found_none(&mut self, error: io::Error) -> Found
        ensures { (room : ℕ) → FoundFits result room }
    {
        match error.kind() {
            ErrorKind::WouldBlock => {
                self.ready = false;
                Found::Nothing
            }
            ErrorKind::Interrupted => Found::Nothing,
            _ => Found::Broken,
        }
    }

    /// Sends a first part of the piece, unless the connection is full.
    fn send(&mut self, piece: &[u8]) -> Sent
        ensures takes { Takes result piece.now }
        ensures full { self.old.full ≡ true → result ≡ Sent.Again }
    {
        if self.full {
            return Sent::Again;
        }
        match self.stream.write(piece) {
            Ok(0) => Sent::Gone,
            Ok(n) => Sent::Took(n),
            Err(error) => match error.kind() {
                ErrorKind::WouldBlock => {
                    self.full = true;
                    Sent::Again
                }
                ErrorKind::Interrupted => Sent::Again,
                _ => Sent::Gone,
            },
        }
    }

    /// Notes an event that the system reports of it.
    fn note(&mut self, event: &Event) {
        if event.is_readable() || event.is_read_closed() || event.is_error() {
            self.ready = !self.ended;
        }
        if event.is_read_closed() || event.is_error() {
            self.over = true;
        }
        if event.is_writable() || event.is_write_closed() || event.is_error() {
            self.full = false;
        }
    }

    /// Shuts down the sending side, and reads and drops what the client has sent meanwhile. A
    /// socket that is closed over unread bytes is reset, and the client can lose the last lines by that.
    fn finish(&mut self) {
        let _ = self.stream.shutdown(Shutdown::Write);
        let mut rest = [0; 1024];
        for _ in 0..MOST_READ_AWAY {
            match self.stream.read(&mut rest) {
                Ok(0) | Err(_) => break,
                Ok(_) => {}
            }
        }
    }
}

/// The index of the connection with this id among those with rising ids. Ids are given one after the other. So it is most
/// often as many places after the first as its id is above the first's, and is looked for there before it is searched.
#[inline]
fn place_of(conns: &[Conn], id: u64) -> Option<usize>
    ensures { IfSome result (λ at. at < length conns.now) }
{
    if conns.is_empty() {
        return None;
    }
    let guess = id.wrapping_sub(conns[0].id) as usize;
    if guess < conns.len() && conns[guess].id == id {
        return Some(guess);
    }
    search(conns, id)
}

/// The same by a search. It is a function of its own so that the path of a full connection is free of it.
#[cold]
#[inline(never)]
fn search(conns: &[Conn], id: u64) -> Option<usize>
    ensures { IfSome result (λ at. at < length conns.now) }
{
    conns.binary_search_by_key(&id, |conn| conn.id).ok()
}

/// Whether the connection with this id is full, so that a send would write nothing.
#[inline]
pub(crate) fn is_full(conns: &[Conn], id: u64) -> bool {
    match place_of(conns, id) {
        Some(at) => conns[at].full,
        None => false,
    }
}

/// The first place from one up to another of a connection that may have bytes.
pub(crate) fn next_ready(conns: &[Conn], from: usize, to: usize) -> Option<usize>
    ensures { IfSome result (λ at. at < length conns.now) }
{
    for at in from..conns.len().min(to) {
        if conns[at].ready {
            return Some(at);
        }
    }
    None
}

/// Notes an event that the system reports of the connection with this id, and returns its place, if there is one.
pub(crate) fn note(conns: &mut [Conn], id: u64, event: &Event) -> Option<usize> {
    let place = place_of(conns, id);
    if let Some(at) = place {
        conns[at].note(event);
    }
    place
}

/// Sends a first part of the piece over the connection with this id.
#[inline(never)]
pub(crate) fn send(conns: &mut [Conn], id: u64, piece: &[u8]) -> Sent
    ensures { Takes result piece.now }
{
    match place_of(conns, id) {
        Some(at) => conns[at].send(piece),
        None => Sent::Gone,
    }
}

/// Closes the connection with this id.
pub(crate) fn close(conns: &mut Vec<Conn>, id: u64) {
    if let Some(at) = place_of(conns, id) {
        conns[at].finish();
    }
    conns.retain(|conn| conn.id != id);
}
