//! Lists of items: to the line's end, or in parentheses.
//!
//! If memory runs out, and after an item that isn't in range, the reader continues to the end,
//! since an item that is outside the grammar is first in the order of refusals.
ghost use Rattle.std.specs.Prelude.{◌≡◌, ◌∷◌, ◌++◌, ◌&&◌, [], Bool, List, Some};
ghost use Rattle.std.specs.List.{list_all};
ghost use Rattle.djq_protocol.specs.Grammar.{all_of, list_in, more_in, put_first};
ghost use Rattle.djq_value.specs.Lexing.{lexeme_of};
ghost use Rattle.djq_value.specs.Token.{open_paren};
ghost use Rattle.djq_parser.specs.Reading.{ReadsAs, ReadsPart, is_outside as is_outside_of};

use crate::item::Item;
use crate::refusal::LineRefusal;
use djq_model::Sequence;
use djq_value::{Lexer, Token};
use std::alloc::Global;

/// The items that were read, and one more; or why there are none.
pub(crate) fn added<T: Drop>(
    items: Result<Sequence<T>, LineRefusal>,
    item: Result<T, LineRefusal>,
) -> Result<Sequence<T>, LineRefusal>
    ensures { (in_range : T → Bool) (xs : List T) (x : T)
        → ReadsAs (list_all in_range) (Some xs) items → ReadsAs in_range (Some x) item
        → ReadsAs (list_all in_range) (Some (xs ++ x ∷ [])) result }
{
    let (mut items, item) = both(items, item)?;
    items.push(item)?;
    Ok(items)
}

/// What was read of two parts; or why one of them is missing.
pub(crate) fn both<T: Drop, U: Drop>(
    one: Result<T, LineRefusal>,
    other: Result<U, LineRefusal>,
) -> Result<(T, U), LineRefusal>
    ensures { (fits : T → Bool) (suits : U → Bool) (x : T) (y : U)
        → ReadsAs fits (Some x) one → ReadsAs suits (Some y) other
        → ReadsAs (λ p. fits p.0 && suits p.1) (Some (x, y)) result }
{
    match (one, other) {
        (Ok(one), Ok(other)) => Ok((one, other)),
        (Ok(_), Err(refusal)) => Err(refusal),
        (Err(refusal), Ok(_)) => Err(refusal),
        (Err(refusal), Err(other)) => Err(refusal.first(other)),
    }
}

/// Whether something is outside the grammar.
pub(crate) fn is_outside<T>(read: &Result<T, LineRefusal>) -> bool
    ensures { result ≡ is_outside_of read.now }
{
    matches!(read, Err(LineRefusal::Syntax))
}

/// Items to the line's end.
pub(crate) fn read_all<T: Item>(
    alloc: Global,
    lexer: &mut Lexer<'_>,
) -> Result<Sequence<T>, LineRefusal>
    ensures { ReadsAs (list_all T.in_range) (all_of T.of lexer.old) result }
{
    let mut items = Ok(Sequence::new(alloc));
    'items: while let Some(token) = lexer.next() {
        let item = T::read(alloc, &token);
        if is_outside(&item) {
            return Err(LineRefusal::Syntax);
        }
        items = added(items, item);
    }
    items
}

/// Items in parentheses, with commas between.
pub(crate) fn read_list<T: Item>(
    alloc: Global,
    lexer: &mut Lexer<'_>,
) -> Result<Sequence<T>, LineRefusal>
    ensures { ReadsPart (list_all T.in_range)
        (list_in T.of lexer.old) result lexer.new }
{
    match lexer.next() {
        Some(Token::Open) => read_opened(alloc, lexer),
        _ => Err(LineRefusal::Syntax),
    }
}

/// Items with commas between, after a `(`, to the `)`.
pub(crate) fn read_opened<T: Item>(
    alloc: Global,
    lexer: &mut Lexer<'_>,
) -> Result<Sequence<T>, LineRefusal>
    ensures { ReadsPart (list_all T.in_range)
        (list_in T.of (open_paren ∷ lexer.old)) result lexer.new }
{
    match lexer.next() {
        Some(Token::Close) => Ok(Sequence::new(alloc)),
        Some(token) => read_from(alloc, lexer, token),
        None => Err(LineRefusal::Syntax),
    }
}

/// The items of a list from one of their tokens on, to the `)`.
fn read_from<'a, T: Item>(
    alloc: Global,
    lexer: &mut Lexer<'a>,
    first: Token<'a>,
) -> Result<Sequence<T>, LineRefusal>
    ensures { ReadsPart (list_all T.in_range)
        (put_first (T.of (lexeme_of first.entry)) (more_in T.of lexer.old)) result lexer.new }
{
    let mut items = Ok(Sequence::new(alloc));
    let mut token = first;
    'items: loop {
        let item = T::read(alloc, &token);
        if is_outside(&item) {
            return Err(LineRefusal::Syntax);
        }
        items = added(items, item);
        match lexer.next() {
            Some(Token::Close) => return items,
            Some(Token::Comma) => {}
            _ => return Err(LineRefusal::Syntax),
        }
        match lexer.next() {
            Some(next) => token = next,
            None => return Err(LineRefusal::Syntax),
        }
    }
}
