use djq_load::{LINE_BYTES, Load};
use std::test::Fail;

/// The lines of five changes with the seed 1.
#[test]
fn gives_the_lines_in_order(rt: HostRuntime) -> Result<(), Fail> {
    let mut load = Load::new(5, 1);
    let mut text = Vec::new(rt.alloc());
    let mut line = [0u8; LINE_BYTES];
    for _ in 0..9 {
        if let Some(n) = load.line(&mut line) {
            text.extend_from_slice(&line[..n])?;
        }
    }
    assert!(rt;
        text.as_slice()
            == b"rel r int int\nrel s int int\nquery q(x,y,z) <- r(x,y), s(y,z)\nadd r 0 1\nadd s 1 1\nadd r 1 0\nadd r 1 1\nadd r 0 1\n".as_slice()
    );
    assert!(rt; load.line(&mut line) == None);
    Ok(())
}

/// A load of which no more is known than that it is one: what a load of a million changes has left is
/// too long to be computed by a proof.
fn load_of(changes: u32, seed: u32) -> Load {
    Load::new(changes, seed)
}

/// The first draws with the seed 1, as other programs with this generator give them: 16838, 5758, 10113
/// and so on. The first of three picks the kind of a change. The others are its values, whole in a load
/// of so many changes.
#[test]
fn draws_the_known_numbers(rt: HostRuntime) -> Result<(), Fail> {
    let mut load = load_of(1_000_000, 1);
    let mut text = Vec::new(rt.alloc());
    let mut line = [0u8; LINE_BYTES];
    for number in 0..8 {
        if let Some(n) = load.line(&mut line) {
            if number >= 3 {
                text.extend_from_slice(&line[..n])?;
            }
        }
    }
    assert!(rt;
        text.as_slice()
            == b"add r 5758 10113\nadd s 31051 5627\nadd r 7419 16212\nadd r 2749 12767\nadd r 12060 32225\n".as_slice()
    );
    Ok(())
}

/// Three lines to begin with, a hundred changes, and three lines of a cursor.
#[test]
fn reads_a_cursor_after_a_hundred_changes(rt: HostRuntime) -> Result<(), Fail> {
    let mut load = Load::new(100, 7);
    let mut line = [0u8; LINE_BYTES];
    for _ in 0..105 {
        assert!(rt; load.line(&mut line).is_some());
    }
    assert!(rt; load.line(&mut line) == Some(8));
    assert!(rt; &line[..8] == b"close c\n".as_slice());
    assert!(rt; load.line(&mut line) == None);
    Ok(())
}
