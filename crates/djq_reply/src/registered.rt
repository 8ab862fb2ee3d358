//! The reply to `query`. A rest is of any length: its line is printed piece by piece, and removed
//! if memory runs out.
ghost use Rattle.std.specs.Prelude.{◌≡◌, ◌+◌, ◌≤◌, ◌∷◌, ◌++◌, codes};
ghost use Rattle.djq_hypergraph.specs.Naming.{edge_text, comma_listed, name_at};
ghost use Rattle.djq_protocol.specs.Reply.{edges_text, query_reply, rest_line};
ghost use Rattle.djq_protocol.specs.declared.limits.TheConstants.{LAST_LINE_BYTES, REPLY_BYTES};
ghost use Rattle.djq_reply.specs.Adding.{AppendsPart};
ghost use Rattle.djq_value.specs.Output.{Puts};
ghost use Rattle.djq_value.specs.declared.output.TheConstants.{KEPT};

use crate::short::{say_number, say_refused};
use bytes::BytesMut;
use djq_hypergraph::{Edges, Names, VarSet};
use djq_model::NoMem;
use djq_protocol::{NamedRest, QueryOutcome, Refusal};
use djq_value::put;

/// Answers `query`: by the most lookups and links for one of its answers, or by a rest.
///
/// # Errors
///
/// `NoMem` is returned only if the room is too small, so for a rest alone, and can't grow; the
/// output is then as before.
pub fn put_registered(
    outcome: &Result<QueryOutcome, Refusal>,
    out: &mut BytesMut,
) -> Result<(), NoMem>
    requires room { REPLY_BYTES + LAST_LINE_BYTES ≤ out.old.spare }
    ensures { Puts out.old out.new (query_reply outcome.now) result }
{
    match outcome {
        Ok(QueryOutcome::Registered(most)) => {
            say_number(out, b"ok query ", *most);
            Ok(())
        }
        Ok(QueryOutcome::Cyclic(rest)) => put_rest(b"no cyclic", rest, out),
        Ok(QueryOutcome::NotConnex(rest)) => put_rest(b"no connex", rest, out),
        Err(refusal) => {
            say_refused(out, *refusal);
            Ok(())
        }
    }
}

/// Words, and the edges of a rest.
fn put_rest(words: &[u8], rest: &NamedRest, out: &mut BytesMut) -> Result<(), NoMem>
    ensures { Puts out.old out.new (rest_line words.now rest.now) result }
{
    let start = out.len();
    let outcome = add_rest(words, rest, out);
    if outcome.is_err() {
        out.truncate(start);
    }
    outcome
}

/// A rest after these words, edge by edge.
fn add_rest(words: &[u8], rest: &NamedRest, out: &mut BytesMut) -> Result<(), NoMem>
    ensures { AppendsPart out.old out.new (rest_line words.now rest.now) result }
{
    put(out, words)?;
    add_edges(&rest.names, &rest.edges, out)?;
    put(out, b"\n")
}

/// Edges, each after a space.
fn add_edges(names: &Names, edges: &Edges, out: &mut BytesMut) -> Result<(), NoMem>
    requires { KEPT ≤ out.old.spare }
    ensures { AppendsPart out.old out.new (edges_text names.now edges.now) result }
{
    for edge in edges.as_slice() {
        add_edge(names, *edge, out)?;
    }
    Ok(())
}

/// An edge after a space.
fn add_edge(names: &Names, edge: VarSet, out: &mut BytesMut) -> Result<(), NoMem>
    ensures { AppendsPart out.old out.new (32 ∷ edge_text names.now edge) result }
{
    let mut rest = edge;
    put(out, b" ")?;
    match rest.pop() {
        None => Ok(()),
        Some(first) => {
            put(out, name_of(names, first))?;
            add_listed(names, rest, out)
        }
    }
}

/// Variables, each after a comma.
fn add_listed(names: &Names, variables: VarSet, out: &mut BytesMut) -> Result<(), NoMem>
    requires { KEPT ≤ out.old.spare }
    ensures { AppendsPart out.old out.new (comma_listed names.now variables) result }
{
    let mut rest = variables;
    'variables: while let Some(variable) = rest.pop() {
        add_variable(names, variable, out)?;
    }
    Ok(())
}

/// A variable after a comma.
fn add_variable(names: &Names, variable: usize, out: &mut BytesMut) -> Result<(), NoMem>
    ensures { AppendsPart out.old out.new (codes "," ++ name_at names.now variable) result }
{
    put(out, b",")?;
    put(out, name_of(names, variable))
}

/// The name of a variable; empty if it has none.
fn name_of(names: &Names, variable: usize) -> &[u8]
    ensures { result.now ≡ name_at names.now variable }
{
    if variable < names.len() {
        names.get(variable)
    } else {
        b""
    }
}
