//! What one token of a line denotes: a name, a type, a value, a term.
ghost use Rattle.std.specs.Prelude.{◌≡◌};
ghost use Rattle.djq_value.specs.Lexing.{lexeme_of};
ghost use Rattle.djq_parser.specs.Reading.{ReadsAs};

use crate::refusal::LineRefusal;
use djq_model::{ColumnType, Name, Term, Value};
use djq_value::{Token, is_text, read_literal, read_name};
use std::alloc::Global;

/// An item of a list: what it is of a token, and which items are in range.
pub(crate) trait Item: Drop {
    ghost use Rattle.std.specs.Prelude.{Bool, Option};
    ghost use Rattle.djq_value.specs.Token.{Token as Lexeme};

    ghost of: { Lexeme → Option Self };

    ghost in_range: { Self → Bool };

    /// The item that a token is.
    fn read(alloc: Global, token: &Token<'_>) -> Result<Self, LineRefusal>
        ensures { ReadsAs in_range (of (lexeme_of token.now)) result };
}

impl Item for Name {
    ghost use Rattle.std.specs.Prelude.{true};
    ghost use Rattle.djq_protocol.specs.Grammar.{name_of};

    ghost of = { name_of };

    ghost in_range = { λ _. true };

    fn read(_alloc: Global, token: &Token<'_>) -> Result<Self, LineRefusal> {
        match token {
            Token::Word(word) => read_name(word).ok_or(LineRefusal::Syntax),
            _ => Err(LineRefusal::Syntax),
        }
    }
}

impl Item for ColumnType {
    ghost use Rattle.std.specs.Prelude.{true};
    ghost use Rattle.djq_protocol.specs.Grammar.{type_of};

    ghost of = { type_of };

    ghost in_range = { λ _. true };

    fn read(_alloc: Global, token: &Token<'_>) -> Result<Self, LineRefusal> {
        match token {
            Token::Word(word) if is_text(word, b"int") => Ok(ColumnType::Int),
            Token::Word(word) if is_text(word, b"text") => Ok(ColumnType::Text),
            _ => Err(LineRefusal::Syntax),
        }
    }
}

impl Item for Value {
    ghost use Rattle.djq_value.specs.Literal.{is_small_value, literal_of};

    ghost of = { literal_of };

    ghost in_range = { is_small_value };

    fn read(alloc: Global, token: &Token<'_>) -> Result<Self, LineRefusal> {
        Ok(read_literal(alloc, token)?)
    }
}

impl Item for Term {
    ghost use Rattle.std.specs.Prelude.{true};
    ghost use Rattle.djq_protocol.specs.Grammar.{is_small_term, term_of};

    ghost of = { term_of };

    ghost in_range = { is_small_term };

    fn read(alloc: Global, token: &Token<'_>) -> Result<Self, LineRefusal> {
        if let Token::Word(word) = token {
            if let Some(name) = read_name(word) {
                return Ok(Term::Variable(name));
            }
            if is_text(word, b"_") {
                return Ok(Term::Hole);
            }
        }
        Ok(Term::Constant(read_literal(alloc, token)?))
    }
}
