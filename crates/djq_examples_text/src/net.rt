ghost use Rattle.std.specs.Prelude.{◌<◌, length, Contains};

use djq_io::{Hub, Listened, Sent, Turn};
use djq_system::TcpHub;
use std::io::{self, Read, Write};
use std::net::{Shutdown, TcpStream};
use std::test::Fail;

/// Serves sessions until so many are closed, or for 1000 turns. What a session brings is sent back.
/// The first session is sent bytes for as long as it accepts some.
fn serve<H: Hub>(hub: &mut H, buf: &mut [u8], closes: u32) -> Turn
    requires { 0 < length buf.old }
{
    let mut open = closes;
    for _ in 0..1000 {
        match hub.turn(buf) {
            Turn::Opened(id, _) => {
                if id == 1 {
                    flood(hub, id);
                }
            }
            Turn::Bytes(id, n) => {
                let _ = hub.send(id, &buf[..n]);
            }
            Turn::Ended(id) => {
                hub.close(id);
                open = open.saturating_sub(1);
                if open == 0 {
                    return Turn::Ended(id);
                }
            }
            Turn::Idle => {}
            last => return last,
        }
    }
    Turn::Idle
}

/// Sends until the session accepts nothing more.
fn flood<H: Hub>(hub: &mut H, id: u64)
    requires { Contains (H.ids hub.old).open_ids id }
{
    for _ in 0..10000 {
        match hub.send(id, &[b'x'; 4096]) {
            Sent::Took(_) => {}
            Sent::Again | Sent::Gone => return,
        }
    }
}

/// A client that sends these bytes, and ends its input if it is to.
fn client(rt: &HostRuntime, port: u16, bytes: &[u8], ends: bool) -> io::Result<TcpStream> {
    let mut client = TcpStream::connect(rt, ("127.0.0.1", port))?;
    client.write_all(bytes)?;
    if ends {
        client.shutdown(Shutdown::Write)?;
    }
    Ok(client)
}

/// Whether a client has its bytes back beside one that reads nothing, and the session of that one
/// ends when it resets.
fn comes_back(hub: &mut TcpHub<HostRuntime>, rt: &HostRuntime, port: u16) -> Result<bool, Fail> {
    let deaf = client(rt, port, b"hello", false)?;
    let mut other = client(rt, port, b"rel r int\n", true)?;
    let mut buf = [0; 4];
    let first = serve(hub, &mut buf, 1);
    let mut back = Vec::new(rt.alloc());
    other.read_to_end(&mut back)?;
    drop(deaf);
    let second = serve(hub, &mut buf, 1);
    Ok(
        first == Turn::Ended(2)
            && back.as_slice() == b"rel r int\n".as_slice()
            && second == Turn::Ended(1),
    )
}

#[test]
fn what_a_client_sends_comes_back(rt: HostRuntime) -> Result<(), Fail> {
    let mut hub = TcpHub::new(rt, rt.alloc())?;
    assert!(rt; hub.listen("127.0.0.1:0") == Listened::Ready);
    let port = hub.port().unwrap_or(0);
    assert!(rt; comes_back(&mut hub, &rt, port)?);
    Ok(())
}

#[test]
fn an_address_that_is_none_is_a_fault(rt: HostRuntime) -> Result<(), Fail> {
    let mut hub = TcpHub::new(rt, rt.alloc())?;
    assert!(rt; hub.turn(&mut [0; 4]) == Turn::Over);
    assert!(rt; hub.listen("no address") == Listened::Failed);
    assert!(rt; hub.port() == None);
    Ok(())
}
