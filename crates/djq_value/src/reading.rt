ghost use Rattle.djq_value.specs.ReadValue.{ReadsValue};

use crate::lexer::{Token, front_token, space_count};
use crate::literal::{LiteralRefusal, read_literal};
use djq_model::Value;
use std::alloc::Global;
use thiserror::Error;

/// Why no value is read. `at` is the place of the first byte that is no space.
#[derive(Clone, Copy, Debug, PartialEq, Eq, Error)]
pub enum ValueRefusal {
    /// There is no literal at that place.
    #[error("no literal at byte {at}")]
    Syntax {
        /// Its place.
        at: usize,
    },
    /// An integer past 64 bits is at that place.
    #[error("an integer past 64 bits at byte {at}")]
    IntRange {
        /// Its place.
        at: usize,
    },
    /// A text of more than 255 bytes is at that place.
    #[error("a text of more than 255 bytes at byte {at}")]
    TextLong {
        /// Its place.
        at: usize,
    },
    /// Out of memory, for a text within its limit.
    #[error("out of memory")]
    NoMem,
}

/// The value of the literal at the front of bytes, and the length of the literal with the spaces
/// before it.
///
/// # Errors
///
/// `Syntax` if and only if there is no literal, `IntRange` and `TextLong` if and only if there is
/// one past its limit. `NoMem` is returned only for a text within its limit: an integer allocates
/// nothing.
pub fn read_value(alloc: Global, bytes: &[u8]) -> Result<(Value, usize), ValueRefusal>
    ensures { ReadsValue bytes.now result }
{
    let at = space_count(bytes);
    if at == bytes.len() {
        return Err(ValueRefusal::Syntax { at });
    }
    let (token, rest) = front_token(&bytes[at..]);
    match read_literal(alloc, &token) {
        Ok(value) => Ok((value, bytes.len() - rest.len())),
        Err(LiteralRefusal::Syntax) => Err(ValueRefusal::Syntax { at }),
        Err(LiteralRefusal::NoMem) => Err(ValueRefusal::NoMem),
        Err(LiteralRefusal::Range) => match token {
            Token::Text(_) => Err(ValueRefusal::TextLong { at }),
            _ => Err(ValueRefusal::IntRange { at }),
        },
    }
}
