use djq_model::Name;

#[test]
fn a_name_keeps_its_bytes(rt: HostRuntime) {
    let cases: [&[u8]; 3] = [b"", b"r", b"abcdefghijklmnopqrstuvwxyz012345"];
    for bytes in cases {
        assert!(rt; bytes.len() <= 32);
        let name = Name::new(bytes);
        assert!(rt; name.as_bytes() == bytes);
        assert!(rt; name.len() == bytes.len());
    }
}

#[test]
fn names_of_the_same_bytes_are_equal(rt: HostRuntime) {
    assert!(rt; Name::new(b"ab") == Name::new(b"ab"));
    assert!(rt; Name::new(b"ab") != Name::new(b"a"));
}
