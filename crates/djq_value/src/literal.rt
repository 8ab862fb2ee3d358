//! Literals: integers and texts.
ghost use Rattle.djq_value.specs.Lexing.{lexeme_of};
ghost use Rattle.djq_value.specs.Literal.{integer_of, literal_of};
ghost use Rattle.djq_value.specs.Reads.{ReadsLiteral};
ghost use Rattle.std.specs.Prelude.{option_map, Some};
ghost use Rattle.djq_model.specs.declared.value.Value.TheVariants.{Int, Text as TextValue};

use crate::lexer::Token;
use crate::number::{Number, read_integer};
use crate::quoted::Quoted;
use djq_model::{TEXT_BYTES, Value};
use std::alloc::Global;
use thiserror::Error;

/// Why a token gives no value.
#[derive(Clone, Copy, Debug, PartialEq, Eq, Error)]
pub enum LiteralRefusal {
    /// It is no literal.
    #[error("no literal")]
    Syntax,
    /// It is an integer past 64 bits, or a text of more than 255 bytes.
    #[error("a literal past its limit")]
    Range,
    /// Out of memory, for a text within its limit.
    #[error("out of memory")]
    NoMem,
}

/// The value that a token is.
///
/// # Errors
///
/// `Syntax` if and only if the token is no literal, `Range` if and only if it is one past its
/// limit. `NoMem` is returned only for a text within its limit: an integer allocates nothing.
pub fn read_literal(alloc: Global, token: &Token<'_>) -> Result<Value, LiteralRefusal>
    ensures { ReadsLiteral (literal_of (lexeme_of token.now)) result }
{
    match token {
        Token::Word(word) => read_number(word),
        Token::Text(text) => read_text(alloc, text),
        _ => Err(LiteralRefusal::Syntax),
    }
}

/// The integer that a word is.
fn read_number(word: &[u8]) -> Result<Value, LiteralRefusal>
    ensures { ReadsLiteral (option_map (λ i. Int i) (integer_of word.now)) result }
{
    match read_integer(word) {
        Number::Small(value) => Ok(Value::Int(value)),
        Number::Wide => Err(LiteralRefusal::Range),
        Number::Other => Err(LiteralRefusal::Syntax),
    }
}

/// A text, copied.
fn read_text(alloc: Global, text: &Quoted<'_>) -> Result<Value, LiteralRefusal>
    ensures { ReadsLiteral (Some (TextValue text.now)) result }
{
    if text.len() > TEXT_BYTES {
        return Err(LiteralRefusal::Range);
    }
    match text.to_text(alloc) {
        Ok(text) => Ok(Value::Text(text)),
        Err(_) => Err(LiteralRefusal::NoMem),
    }
}
