ghost use Rattle.std.specs.Prelude.{◌<◌, length};

use djq_io::{
    Class, Coming, Hub, HubCall, IdList, Incoming, Listened, MemHub, MemSink, MemSource, Piece,
    Read, Sent, Sink, Source, Turn, Written, Wrote, write_all,
};
use djq_system::{StdSink, StdSource};
use std::alloc::AllocError;
use std::marker::Brand;
use std::test::Fail;

#[test]
fn a_source_gives_its_bytes(rt: HostRuntime) -> Result<(), Fail> {
    let mut source = MemSource::new(b"ok\n".to_vec(rt.alloc())?, 2);
    source.fail_at(2)?;
    let mut buf = [0; 4];
    assert!(rt; source.read(&mut buf) == Read::Got(2));
    assert!(rt; &buf[..2] == b"ok".as_slice());
    assert!(rt; source.read(&mut buf) == Read::Failed);
    assert!(rt; source.read(&mut buf) == Read::Got(1));
    assert!(rt; source.read(&mut buf) == Read::End);
    Ok(())
}

#[test]
fn a_sink_keeps_what_it_took(rt: HostRuntime) -> Result<(), Fail> {
    let mut sink = MemSink::new(rt.alloc());
    sink.fail_at(2)?;
    assert!(rt; write_all(&mut sink, b"ok\n") == Written::All);
    assert!(rt; write_all(&mut sink, b"lost") == Written::Failed(0));
    assert!(rt; sink.write(b"end\n") == Wrote::Took(4));
    assert!(rt; sink.taken() == Some(b"ok\nend\n".as_slice()));
    assert!(rt; sink.writes().is_some_and(|writes| writes.len() == 3));
    Ok(())
}

#[test]
fn std_moves_bytes(rt: HostRuntime) -> Result<(), Fail> {
    let mut source = StdSource::<_, Brand>::new(b"ok\n".as_slice());
    let mut buf = [0; 4];
    assert!(rt; source.read(&mut buf) == Read::Got(3));
    assert!(rt; &buf[..3] == b"ok\n".as_slice());
    assert!(rt; source.read(&mut buf) == Read::End);
    let mut sink = StdSink::new(Vec::new(rt.alloc()));
    assert!(rt; sink.write(b"ok\n") == Wrote::Took(3));
    Ok(())
}

/// Puts a turn at the end of a hub's script.
fn add(hub: &mut MemHub, rt: &HostRuntime, turn: Incoming) -> Result<(), Fail> {
    let blocked = IdList::of(Vec::new(rt.alloc()));
    hub.push(Coming { turn, blocked })?;
    Ok(())
}

/// Reads turns until the hub is over or fails, which is the answer. It greets each session that
/// opens, and closes each that ends.
fn greet<H: Hub>(
    hub: &mut H,
    buf: &mut [u8],
    turns: &mut Vec<Turn>,
    sent: &mut Vec<Sent>,
) -> Result<Turn, AllocError>
    requires { 0 < length buf.old }
{
    for _ in 0..u64::MAX {
        match hub.turn(buf) {
            Turn::Opened(id, class) => {
                turns.push(Turn::Opened(id, class))?;
                sent.push(hub.send(id, b"hello"))?;
            }
            Turn::Ended(id) => {
                turns.push(Turn::Ended(id))?;
                hub.close(id);
            }
            Turn::Over => return Ok(Turn::Over),
            Turn::Failed => return Ok(Turn::Failed),
            turn => turns.push(turn)?,
        }
    }
    Ok(Turn::Failed)
}

#[test]
fn a_hub_goes_by_its_script(rt: HostRuntime) -> Result<(), Fail> {
    let mut hub = MemHub::new(rt.alloc());
    add(&mut hub, &rt, Incoming::Opens(1))?;
    add(
        &mut hub,
        &rt,
        Incoming::Brings(1, Piece::copy_of(rt.alloc(), b"query q")?),
    )?;
    add(&mut hub, &rt, Incoming::Ends(1))?;
    hub.fail(HubCall::Listen(1))?;
    assert!(rt; hub.listen("127.0.0.1:0") == Listened::Failed);
    assert!(rt; hub.past().is_some_and(|past| past.len() == 1));
    let mut turns = Vec::new(rt.alloc());
    let mut sent = Vec::new(rt.alloc());
    let end = greet(&mut hub, &mut [0; 4], &mut turns, &mut sent)?;
    let want = [
        Turn::Opened(1, Class::Client),
        Turn::Bytes(1, 4),
        Turn::Bytes(1, 3),
        Turn::Ended(1),
    ];
    assert!(rt; turns.as_slice() == want.as_slice() && end == Turn::Over);
    assert!(rt; sent.as_slice() == [Sent::Took(5)].as_slice());
    Ok(())
}
