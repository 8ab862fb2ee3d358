use djq_io::{MemSink, MemSource};
use djq_mirror::{Mirrored, run_mirror};
use djq_model::Name;
use std::test::Fail;

/// What a session was sent, how a mirror of `q` that follows it ends, and what it writes.
const FOLLOWED: [(&[u8], Mirrored, &[u8]); 4] = [
    (
        b"ok watch 0\nok open\n= 2\n= 1\nend\n+ q 3\nat q 3\n- q 1\nat q 4\n",
        Mirrored::Done,
        b"= 2\n= 3\nend\n",
    ),
    // the listing became stale
    (
        b"ok watch 0\nok open\n= 1\nmore\n+ q 2\nat q 2\nstale c r 2\n",
        Mirrored::Done,
        b"none\n",
    ),
    // an answer is removed that isn't there
    (
        b"ok watch 0\nok open\nend\n- q 1\nok watch",
        Mirrored::Outside(4),
        b"mirror 4\n",
    ),
    // the last line has no end
    (b"ok\nok", Mirrored::Outside(2), b"mirror 2\n"),
];

/// The bytes arrive in pieces that cut the lines.
#[test]
fn follows_what_a_session_was_sent(rt: HostRuntime) -> Result<(), Fail> {
    for (sent, end, lines) in FOLLOWED {
        let mut source = MemSource::new(sent.to_vec(rt.alloc())?, 3);
        let mut sink = MemSink::new(rt.alloc());
        assert!(rt; run_mirror(rt.alloc(), Name::new(b"q"), &mut source, &mut sink) == end);
        assert!(rt; sink.taken() == Some(lines));
    }
    Ok(())
}
