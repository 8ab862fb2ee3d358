//! The lines that register a query.
ghost use Rattle.djq_protocol.specs.Grammar.{query_of_tokens};
ghost use Rattle.djq_parser.specs.Reading.{ReadsAs, is_small_query};

use crate::body::read_body;
use crate::items::{is_outside, read_list};
use crate::refusal::LineRefusal;
use djq_model::{Name, Query};
use djq_value::{Lexer, next_name};
use std::alloc::Global;

/// A query, to the line's end.
pub(crate) fn read_query(alloc: Global, lexer: &mut Lexer<'_>) -> Result<Query, LineRefusal>
    ensures { ReadsAs is_small_query (query_of_tokens lexer.old) result }
{
    let Some(name) = next_name(lexer) else {
        return Err(LineRefusal::Syntax);
    };
    let head = read_list::<Name>(alloc, lexer);
    if is_outside(&head) {
        return Err(LineRefusal::Syntax);
    }
    // the head's refusal can only be out of memory, which is last
    let (atoms, comparisons) = read_body(alloc, lexer)?;
    let head = head?;
    Ok(Query {
        name,
        head,
        atoms,
        comparisons,
    })
}
