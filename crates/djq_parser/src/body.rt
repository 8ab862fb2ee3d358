//! The body of a query: its atoms and comparisons, between commas.
//!
//! As in lists, reading continues if memory runs out, and after a literal past its limit.
ghost use Rattle.std.specs.Prelude.{◌≡◌, List, Option, Some, length, option_map};
ghost use Rattle.std.specs.List.{list_all};
ghost use Rattle.djq_model.specs.declared.query.Term.{Term as TermOf};
ghost use Rattle.djq_model.specs.declared.value.Value.{Value as ValueOf};
ghost use Rattle.djq_protocol.specs.Grammar.{Body as BodyOf, body_in, is_small_term, item_in};
ghost use Rattle.djq_protocol.specs.Grammar.{items_in, with_atoms};
ghost use Rattle.djq_value.specs.Lexing.{lexeme_of};
ghost use Rattle.djq_value.specs.Literal.{is_small_value};
ghost use Rattle.djq_parser.specs.Reading.{ReadsAs, ReadsPart, is_comma as is_comma_of};
ghost use Rattle.djq_parser.specs.Reading.{is_small_body};
ghost use Rattle.djq_parser.specs.Bodies.{HasOneMore, BodyIsRead, ReadsOn, atom_of};
ghost use Rattle.djq_parser.specs.Bodies.{comparison_behind, constant_in, with_item};

use crate::item::Item;
use crate::items::{both, is_outside, read_opened};
use crate::refusal::LineRefusal;
use djq_model::{
    Atom, Atoms, Comparison, Comparisons, Name, Operator, Sequence, Term, Terms, Value,
};
use djq_value::{Lexer, Token, next_name};
use std::alloc::Global;

/// The atoms and the comparisons of a body.
pub(crate) type Body = (Atoms, Comparisons);

/// What was read of a body: its items, or why there are none; and whether an atom is among them.
#[derive(Drop)]
pub(crate) struct Parts {
    read: Result<Body, LineRefusal>,
    has_atom: bool,
}

/// The body after the head of a query, to the line's end.
pub(crate) fn read_body(alloc: Global, lexer: &mut Lexer<'_>) -> Result<Body, LineRefusal>
    ensures { ReadsAs is_small_body (body_in lexer.old) result }
{
    match lexer.next() {
        Some(Token::Arrow) => read_items(alloc, lexer),
        _ => Err(LineRefusal::Syntax),
    }
}

/// Items with commas between, one atom at least, to the line's end.
fn read_items(alloc: Global, lexer: &mut Lexer<'_>) -> Result<Body, LineRefusal>
    ensures { ReadsAs is_small_body (with_atoms (items_in 0 lexer.old)) result }
{
    let mut parts = Parts {
        read: Ok((Sequence::new(alloc), Sequence::new(alloc))),
        has_atom: false,
    };
    'items: loop {
        match read_item(alloc, lexer, parts) {
            Some(more) => parts = more,
            None => return Err(LineRefusal::Syntax),
        }
        match lexer.next() {
            None => return whole(parts),
            Some(token) => {
                if !is_comma(&token) {
                    return Err(LineRefusal::Syntax);
                }
            }
        }
    }
}

/// The body that was read to its end: it has an atom.
fn whole(parts: Parts) -> Result<Body, LineRefusal>
    ensures { (b : BodyOf) → BodyIsRead b parts → ReadsAs is_small_body (with_atoms (Some b)) result }
{
    if parts.has_atom {
        parts.read
    } else {
        Err(LineRefusal::Syntax)
    }
}

/// Whether a token is a comma.
fn is_comma(token: &Token<'_>) -> bool
    ensures { result ≡ is_comma_of (lexeme_of token.now) }
{
    matches!(token, Token::Comma)
}

/// The parts that were read, and an item more; none if no item is next.
fn read_item(alloc: Global, lexer: &mut Lexer<'_>, parts: Parts) -> Option<Parts>
    ensures { (b : BodyOf) → BodyIsRead b parts
        → ReadsOn b (item_in (length b.0) lexer.old) result lexer.new }
{
    let name = next_name(lexer)?;
    match lexer.next() {
        Some(Token::Open) => {
            let terms = read_opened::<Term>(alloc, lexer);
            with_atom(parts, name, terms)
        }
        Some(Token::Operator(operator)) => {
            let constant = read_constant(alloc, lexer);
            with_comparison(parts, name, operator, constant)
        }
        _ => None,
    }
}

/// The constant of a comparison.
fn read_constant(alloc: Global, lexer: &mut Lexer<'_>) -> Result<Value, LineRefusal>
    ensures { ReadsPart is_small_value (constant_in lexer.old) result lexer.new }
{
    match lexer.next() {
        Some(token) => Value::read(alloc, &token),
        None => Err(LineRefusal::Syntax),
    }
}

/// The parts and an atom of these terms; none if the terms are outside the grammar.
fn with_atom(parts: Parts, relation: Name, terms: Result<Terms, LineRefusal>) -> Option<Parts>
    ensures { (b : BodyOf) (o : Option (List TermOf))
        → BodyIsRead b parts → ReadsAs (list_all is_small_term) o terms
        → HasOneMore b (option_map (atom_of relation) o) result }
{
    if is_outside(&terms) {
        return None;
    }
    let read = add_atom(parts.read, relation, terms);
    Some(Parts {
        read,
        has_atom: true,
    })
}

/// What was read, and an atom more, unless one of both was refused.
fn add_atom(
    read: Result<Body, LineRefusal>,
    relation: Name,
    terms: Result<Terms, LineRefusal>,
) -> Result<Body, LineRefusal>
    ensures { (b : BodyOf) (ts : List TermOf)
        → ReadsAs is_small_body (Some b) read → ReadsAs (list_all is_small_term) (Some ts) terms
        → ReadsAs is_small_body (Some (with_item b (atom_of relation ts))) result }
{
    let ((mut atoms, comparisons), terms) = both(read, terms)?;
    atoms.push(Atom { relation, terms })?;
    Ok((atoms, comparisons))
}

/// The parts and a comparison with this constant, after the atoms that were read; none if the
/// constant is outside the grammar.
fn with_comparison(
    parts: Parts,
    variable: Name,
    operator: Operator,
    constant: Result<Value, LineRefusal>,
) -> Option<Parts>
    ensures { (b : BodyOf) (o : Option ValueOf)
        → BodyIsRead b parts → ReadsAs is_small_value o constant
        → HasOneMore b (option_map (comparison_behind (length b.0) variable operator) o) result }
{
    if is_outside(&constant) {
        return None;
    }
    let read = add_comparison(parts.read, variable, operator, constant);
    Some(Parts {
        read,
        has_atom: parts.has_atom,
    })
}

/// What was read, and a comparison more after the atoms so far, unless one of both was refused.
fn add_comparison(
    read: Result<Body, LineRefusal>,
    variable: Name,
    operator: Operator,
    constant: Result<Value, LineRefusal>,
) -> Result<Body, LineRefusal>
    ensures { (b : BodyOf) (v : ValueOf)
        → ReadsAs is_small_body (Some b) read → ReadsAs is_small_value (Some v) constant
        → ReadsAs is_small_body
        (Some (with_item b (comparison_behind (length b.0) variable operator v))) result }
{
    let ((atoms, mut comparisons), constant) = both(read, constant)?;
    let behind = atoms.len();
    comparisons.push(Comparison {
        variable,
        operator,
        constant,
        behind,
    })?;
    Ok((atoms, comparisons))
}
