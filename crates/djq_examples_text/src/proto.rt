use djq_model::{Operator, Term};
use djq_parser::{Front, RowLine, Splitter, is_blank, read_command, read_row};
use djq_protocol::Command;
use std::alloc::{AllocError, Global};
use std::test::Fail;

#[test]
fn keeps_what_a_query_says(rt: HostRuntime) {
    let read = read_command(rt.alloc(), b"query q(z,x)<-edge(x, _ ,z, \"a\"),z>=-6");
    let Ok(Command::Query { query }) = read else {
        panic!(rt; "the line says a query");
    };
    assert!(rt; query.name.as_bytes() == b"q".as_slice());
    assert!(rt; query.head.len() == 2);
    assert!(rt; query.atoms.len() == 1);
    for atom in query.atoms.as_slice() {
        assert!(rt; atom.relation.as_bytes() == b"edge".as_slice());
        assert!(rt; atom.terms.len() == 4);
        assert!(rt; matches!(atom.terms.get(0), Some(Term::Variable(_))));
    }
    let Some(comparison) = query.comparisons.get(0) else {
        panic!(rt; "the body has a comparison");
    };
    assert!(rt; comparison.variable.as_bytes() == b"z".as_slice());
    assert!(rt; comparison.operator == Operator::GreaterOrEqual);
    assert!(rt; comparison.behind == 1);
}

/// A line that adds a row of so many values.
fn long_line(alloc: Global, count: usize) -> Result<Vec<u8>, AllocError> {
    let mut line = Vec::from_slice(alloc, b"add r")?;
    for _ in 0..count {
        line.extend_from_slice(b" 12")?;
    }
    Ok(line)
}

#[test]
fn reads_rows(rt: HostRuntime) -> Result<(), Fail> {
    let mut row = Vec::new(rt.alloc());
    let line = long_line(rt.alloc(), 1000)?;
    assert!(rt; matches!(read_row(rt.alloc(), &line, &mut row), RowLine::Add(_)));
    assert!(rt; row.len() == 1000);
    let Ok(Command::Add { row: values, .. }) = read_command(rt.alloc(), &line) else {
        panic!(rt; "the line adds a row");
    };
    assert!(rt; values.len() == 1000);
    let RowLine::Del(name) = read_row(rt.alloc(), b" del r -2  \"a b\" ", &mut row) else {
        panic!(rt; "the line deletes a row");
    };
    assert!(rt; name == b"r".as_slice());
    assert!(rt; row.len() == 2);
    assert!(rt; matches!(read_row(rt.alloc(), b"drop r", &mut row), RowLine::Other));
    Ok(())
}

/// The number that a `done` names, if a line is one.
fn named(alloc: Global, line: &[u8]) -> Option<Option<u32>> {
    match read_command(alloc, line) {
        Ok(Command::Done { count }) => Some(count),
        _ => None,
    }
}

#[test]
fn reads_how_many_lines_are_held(rt: HostRuntime) {
    assert!(rt; named(rt.alloc(), b"done") == Some(None));
    assert!(rt; named(rt.alloc(), b"done 0065536 ") == Some(Some(65_536)));
    assert!(rt; named(rt.alloc(), b"done 99999999999999999999999") == Some(Some(4_294_967_295)));
    assert!(rt; named(rt.alloc(), b"done -2") == None && named(rt.alloc(), b"done 2 2") == None);
}

#[test]
fn cuts_lines(rt: HostRuntime) {
    let Front::Line { end, rest } = Splitter::front(b"add r 1\r\nquit") else {
        panic!(rt; "a line is in front");
    };
    assert!(rt; end == 7);
    assert!(rt; rest == 9);
    assert!(rt; matches!(Splitter::front(b"quit"), Front::Dry));
    assert!(rt; is_blank(b"  ") && !is_blank(b" \t"));
}
