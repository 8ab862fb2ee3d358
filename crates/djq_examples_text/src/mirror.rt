use bytes::BytesMut;
use djq_mirror::{Mirror, MirrorRefusal};
use djq_model::Name;

#[test]
fn refuses_what_may_not_come(rt: HostRuntime) {
    let mut mirror = Mirror::new(rt.alloc(), Name::new(b"q"));
    assert!(rt; mirror.line(b"ok open") == Ok(()));
    assert!(rt; mirror.line(b"= 1 \"a b\"") == Ok(()));
    assert!(rt; mirror.line(b"= 1 \"a b\"") == Err(MirrorRefusal::Outside));
    assert!(rt; mirror.line(b"end") == Ok(()));
    assert!(rt; mirror.line(b"more") == Err(MirrorRefusal::Outside));
    assert!(rt; mirror.line(b"- q 1") == Err(MirrorRefusal::Outside));
    assert!(rt; mirror.line(b"- p 1") == Ok(()));
    let mut out = BytesMut::new(rt.alloc());
    assert!(rt; mirror.write(&mut out) == Ok(()));
    let want: &[u8] = b"= 1 \"a b\"\nend\n";
    assert!(rt; out.as_slice() == want);
}

#[test]
fn knows_the_forms(rt: HostRuntime) {
    let forms: [&[u8]; 22] = [
        b"=",
        b"= -9223372036854775808 \"\\\"\\n\"",
        b"ok added 7 2",
        b"ok query 18446744073709551615",
        b"no connex x,_ y,z",
        b"n 0 leaf p -",
        b"n 2 meet 0 1 x,_ out",
        b"n 1 trim 0 x",
        b"stale c r 2",
        b"at q 3",
        b"end slow",
        b"err 16 unbound",
        b"err 18 batch",
        b"ok batch",
        b"ok held 1000",
        b"ok done 7 2",
        b"ok union 8",
        b"union",
        b"m a",
        b"err 17 member",
        b"err 19 absent",
        b"err 20 held",
    ];
    let others: [&[u8]; 21] = [
        b"",
        b"ok ",
        b"OK",
        b"=  1",
        b"= -0",
        b"= 01",
        b"= 9223372036854775808",
        b"= \"a",
        b"= \"\xff\"",
        b"+ q1 1 ",
        b"ok query 04",
        b"ok query 18446744073709551616",
        b"no cyclic",
        b"no cyclic x,,y",
        b"n 0 leaf p",
        b"end now",
        b"ok batch 1",
        b"ok held",
        b"ok done 7",
        b"m",
        b"m a b",
    ];
    let mut mirror = Mirror::new(rt.alloc(), Name::new(b"q"));
    for line in forms {
        assert!(rt; mirror.line(line) == Ok(()));
    }
    for line in others {
        assert!(rt; mirror.line(line) == Err(MirrorRefusal::Outside));
    }
}
