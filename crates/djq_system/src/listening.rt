use mio::net::{TcpListener, TcpStream};
use mio::{Events, Interest, Poll, Token};
use std::io;
use std::net::{self, Net, SocketAddr};
use std::time::Duration;

/// A socket that accepts connections, and what waits for it and for the connections.
#[derive(Drop)]
pub(crate) struct Listening {
    socket: TcpListener,
    poll: Poll,
}

/// The token of the listener, which is no session's id.
pub(crate) const LISTENER: usize = 0;

impl Listening {
    /// Begins to accept connections at an address.
    pub fn at<R: Net<Listener = net::TcpListener, Stream = net::TcpStream>>(
        rt: &R,
        addr: &str,
    ) -> io::Result<Self> {
        let socket = net::TcpListener::bind(rt, addr)?;
        socket.set_nonblocking(true)?;
        let mut socket = TcpListener::from_std(socket);
        let poll = Poll::new(rt)?;
        poll.registry()
            .register(&mut socket, Token(LISTENER), Interest::READABLE)?;
        Ok(Listening { socket, poll })
    }

    /// The address at which it listens, with the port that the system gave.
    pub fn address(&self) -> io::Result<SocketAddr> {
        self.socket.local_addr()
    }

    /// The next connection, whose events have this token.
    pub fn accept(&self, token: usize) -> io::Result<TcpStream> {
        let (mut stream, _) = self.socket.accept()?;
        // A reply is sent at once, also after one that the client hasn't acknowledged.
        let _ = stream.set_nodelay(true);
        self.poll.registry().register(
            &mut stream,
            Token(token),
            Interest::READABLE | Interest::WRITABLE,
        )?;
        Ok(stream)
    }

    /// Waits until there are events of the sockets, or for so many milliseconds.
    pub fn wait(&mut self, events: &mut Events, millis: u64) -> io::Result<()> {
        self.poll.poll(events, Some(Duration::from_millis(millis)))
    }
}
