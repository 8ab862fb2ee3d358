ghost use Rattle.std.specs.Prelude.{◌≡◌};

use djq_io::{Piece, Sent, Told};
use djq_schedule::{ScheduleRefusal, count_lines, outside_line, schedule_hub, sent_text};
use std::test::Fail;

/// Each kind of line.
const SCHEDULE: &[u8] = b"open 1\nsay 1 x\npart 1 y\nagain 1\nfree 1\nend 1";

/// The number of a schedule's first line outside the grammar, or none if it is a hub.
fn refused_at(rt: &HostRuntime, schedule: &[u8]) -> Result<Option<u64>, Fail> {
    match schedule_hub(rt.alloc(), schedule) {
        Ok(_) => Ok(None),
        Err(ScheduleRefusal::Outside(number)) => Ok(Some(number)),
        Err(ScheduleRefusal::NoMem) => Err("out of memory".into()),
    }
}

#[test]
fn each_kind_of_line_is_in_the_grammar(rt: HostRuntime) -> Result<(), Fail> {
    assert!(rt; refused_at(&rt, SCHEDULE)? == None);
    assert!(rt; count_lines(SCHEDULE) == 6);
    Ok(())
}

/// The wrong line follows one that opens session 1.
#[test]
fn the_first_line_outside_the_grammar_is_told(rt: HostRuntime) -> Result<(), Fail> {
    let lines = [
        b"open 1".as_slice(),
        b"open 01",
        b"open 2 x",
        b"say 2 x",
        b"part",
        b"again 2",
        b"free 1000001",
        b"end 1 x",
        b"",
        b"fly 1",
    ];
    for line in lines {
        let mut schedule = b"open 1\n".to_vec(rt.alloc())?;
        schedule.extend_from_slice(line)?;
        schedule.extend_from_slice(b"\nfly\n")?;
        assert!(rt; refused_at(&rt, &schedule)? == Some(2));
    }
    Ok(())
}

/// Puts a send at the end of a hub's past.
fn add_send(rt: &HostRuntime, past: &mut Vec<Told>, id: u64, bytes: &[u8]) -> Result<(), Fail> {
    let piece = Piece::copy_of(rt.alloc(), bytes)?;
    past.push(Told::Sending(id, bytes.len(), Sent::Took(bytes.len()), piece))?;
    Ok(())
}

/// A session's line is written once its end is sent, and another's that ends before it is written first.
#[test]
fn lines_are_told_as_they_end(rt: HostRuntime) -> Result<(), Fail> {
    let mut past = Vec::new(rt.alloc());
    add_send(&rt, &mut past, 1, b"a\nb")?;
    add_send(&rt, &mut past, 2, b"c\n")?;
    add_send(&rt, &mut past, 1, b"d\ne")?;
    let text = sent_text(rt.alloc(), &past)?;
    assert!(rt; text.as_slice() == b"1< a\n2< c\n1< bd\n".as_slice());
    let line = outside_line(rt.alloc(), 20)?;
    assert!(rt; line.as_slice() == b"schedule 20\n".as_slice());
    Ok(())
}
