use bytes::BytesMut;
use djq_hypergraph::{Edges, Names, VarSet};
use djq_model::{Name, NoMem, Row, Text, Value};
use djq_protocol::limits::{LAST_LINE_BYTES, REPLY_BYTES};
use djq_protocol::{
    AddOutcome, DeleteOutcome, DoneRefusal, EndLine, LineRefusal, NamedRest, QueryOutcome, Refusal,
    RefusedLine, Shape, Sign,
};
use djq_reply::{
    put_answer, put_at, put_change, put_explained, put_last, put_member, put_registered, say_added,
    say_batch, say_batch_done, say_bye, say_cut, say_deleted, say_done, say_end, say_has, say_held,
    say_lost, say_opened, say_refused, say_shape, say_stale, say_union, say_watched,
};
use std::alloc::{AllocError, Global};
use std::test::Fail;

/// The replies about rows, batches and ends.
fn say_rows_and_ends(out: &mut BytesMut) -> Result<(), AllocError> {
    out.reserve(REPLY_BYTES + LAST_LINE_BYTES)?;
    say_refused(out, Refusal::NoMemory);
    out.reserve(REPLY_BYTES + LAST_LINE_BYTES)?;
    say_done(out, Ok(()));
    out.reserve(REPLY_BYTES + LAST_LINE_BYTES)?;
    say_added(out, Ok(AddOutcome::First), 18_446_744_073_709_551_615);
    out.reserve(REPLY_BYTES + LAST_LINE_BYTES)?;
    say_deleted(out, Ok(DeleteOutcome::Left(12)), 3);
    out.reserve(REPLY_BYTES + LAST_LINE_BYTES)?;
    say_batch(out, Ok(()));
    out.reserve(REPLY_BYTES + LAST_LINE_BYTES)?;
    say_held(out, Ok(()), 1000);
    out.reserve(REPLY_BYTES + LAST_LINE_BYTES)?;
    say_batch_done(out, Ok(2), 9);
    out.reserve(REPLY_BYTES + LAST_LINE_BYTES)?;
    say_bye(out);
    out.reserve(LAST_LINE_BYTES)?;
    say_cut(out);
    say_lost(out);
    out.reserve(LAST_LINE_BYTES)?;
    say_end(out, EndLine::Slow);
    Ok(())
}

#[test]
fn answers_rows_and_ends(rt: HostRuntime) -> Result<(), Fail> {
    let mut out = BytesMut::new(rt.alloc());
    say_rows_and_ends(&mut out)?;
    assert!(rt;
        out.as_slice()
            == b"err 12 memory\nok\nok added 18446744073709551615 1\nok removed 3 12\nok batch\n\
            ok held 1000\nok done 9 2\nbye\nerr 13 cut\nerr 18 batch\nend slow\n"
                .as_slice()
    );
    Ok(())
}

/// Why a `done` is refused, and its reply.
const REFUSED: [(DoneRefusal, &[u8]); 4] = [
    (DoneRefusal::OtherNumber, b"err 20 held\n"),
    (
        DoneRefusal::Line(RefusedLine {
            at: 1,
            refusal: LineRefusal::Absent,
        }),
        b"err 19 absent\n",
    ),
    (DoneRefusal::LastChange, b"err 11 limit\n"),
    (DoneRefusal::NoMemory, b"err 12 memory\n"),
];

#[test]
fn answers_refused_transactions(rt: HostRuntime) -> Result<(), Fail> {
    for (refusal, reply) in REFUSED {
        let mut out = BytesMut::with_capacity(rt.alloc(), REPLY_BYTES + LAST_LINE_BYTES)?;
        say_batch_done(&mut out, Err(refusal), 9);
        assert!(rt; out.as_slice() == reply);
    }
    Ok(())
}

/// The replies about queries, watches and cursors.
fn say_queries(out: &mut BytesMut) -> Result<(), AllocError> {
    out.reserve(REPLY_BYTES + LAST_LINE_BYTES)?;
    say_union(out, Ok(20));
    out.reserve(REPLY_BYTES + LAST_LINE_BYTES)?;
    say_has(out, Ok(true));
    out.reserve(REPLY_BYTES + LAST_LINE_BYTES)?;
    say_shape(out, Ok(Shape::Flat));
    out.reserve(REPLY_BYTES + LAST_LINE_BYTES)?;
    say_watched(out, Ok(()), 33);
    out.reserve(REPLY_BYTES + LAST_LINE_BYTES)?;
    say_opened(out, Ok(()));
    out.reserve(REPLY_BYTES + LAST_LINE_BYTES)?;
    say_stale(out, &Name::new(b"c"), &Name::new(b"rel"), 5);
    Ok(())
}

#[test]
fn answers_queries(rt: HostRuntime) -> Result<(), Fail> {
    let mut out = BytesMut::new(rt.alloc());
    say_queries(&mut out)?;
    assert!(rt;
        out.as_slice()
            == b"ok union 20\nyes\nflat\nok watch 33\nok open\nstale c rel 5\n".as_slice()
    );
    Ok(())
}

/// The row 1, -2, "a\"".
fn a_row(alloc: Global) -> Result<Row, NoMem> {
    let mut row = Row::new(alloc);
    row.push(Value::Int(1))?;
    row.push(Value::Int(-2))?;
    row.push(Value::Text(Text::new(b"a\"".to_vec(alloc)?)))?;
    Ok(row)
}

/// The lines of a listing, of a change, and of what is explained.
fn print_changes(row: &Row, out: &mut BytesMut) -> Result<(), NoMem> {
    let query = Name::new(b"q");
    put_answer(row, out)?;
    put_last(false, out)?;
    put_change(Sign::Came, &query, row, out)?;
    put_at(&query, 7, out)?;
    put_member(&query, out)?;
    put_explained(b"n 0 leaf r x out\n", out)
}

#[test]
fn prints_listings_and_changes(rt: HostRuntime) -> Result<(), Fail> {
    let row = a_row(rt.alloc())?;
    let mut out = BytesMut::new(rt.alloc());
    print_changes(&row, &mut out)?;
    assert!(rt;
        out.as_slice()
            == b"= 1 -2 \"a\\\"\"\nmore\n+ q 1 -2 \"a\\\"\"\nat q 7\nm q\nn 0 leaf r x out\nend\n".as_slice()
    );
    Ok(())
}

/// The edges x,y and x,z and y,z, and one without a variable.
fn a_rest(alloc: Global) -> Result<NamedRest, AllocError> {
    let mut names = Names::new(alloc);
    names.push(alloc, b"x")?;
    names.push(alloc, b"item")?;
    names.push(alloc, b"z")?;
    let mut edges = Edges::new(alloc);
    edges.push(VarSet::new().insert(0).insert(1))?;
    edges.push(VarSet::new().insert(2).insert(0))?;
    edges.push(VarSet::new().insert(1))?;
    edges.push(VarSet::new())?;
    Ok(NamedRest { edges, names })
}

#[test]
fn prints_rests(rt: HostRuntime) -> Result<(), Fail> {
    let cyclic = Ok(QueryOutcome::Cyclic(a_rest(rt.alloc())?));
    let mut out = BytesMut::with_capacity(rt.alloc(), REPLY_BYTES + LAST_LINE_BYTES)?;
    put_registered(&cyclic, &mut out)?;
    assert!(rt; out.as_slice() == b"no cyclic x,item x,z item \n".as_slice());
    Ok(())
}
