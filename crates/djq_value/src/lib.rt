//! Tokens and literals: what the words of a line are, and how values are printed.
//!
//! [`Lexer`] returns the tokens of a line, [`read_literal`] and [`read_name`] return what a token
//! denotes, and [`print_cell`] appends a space and the text of a value. [`read_value`] reads a
//! value at the front of bytes that continue after it.
//!
//! ```text
//! add r -20 "a\"b"     the words add, r and -20, and a text
//! -20                  the integer -20, printed as -20
//! -007                 the integer -7, printed as -7
//! "a\"b"               the text a"b, printed as "a\"b"
//! 9223372036854775808  no value: it is past 64 bits
//! ```
//!
//! An integer of at most 18 digits can be read without a token: [`Lexer::next_small`] is for rows,
//! of which most values are such. So can a name that a space follows: [`Lexer::next_close_name`].
//!
//! Nothing here depends on commands, replies, relations or types of columns.
//!
//! What surprises: output is appended to a `BytesMut`, of which contracts see the bytes and the
//! room after them. Every call that prints leaves 32 bytes of room ([`KEPT`]), so that a session's
//! last line never needs memory. A text that is printed only in part, because memory runs out, is
//! removed: a call appends its text whole, or nothing. An integer has several spellings and is
//! printed in one; a text has one.
//!
//! Inside, `lexer` cuts, `word`, `number`, `literal` and `quoted` read; `print` and `output`
//! append, and `write` writes into existing bytes. A text remains in its line as [`Quoted`] until
//! it is copied. `laws` has the promises on both directions at once: a value that is printed is
//! read back, and tokens and values are read if and only if they are spelled so.
#![tactic(auto)]

pub use digits::{digit_count, extend_digits};
pub use laws::{tokens_are_spelled, values_are_read_back, values_are_spelled};
pub use lexer::{Lexer, Token};
pub use literal::{LiteralRefusal, read_literal};
pub use number::read_natural;
pub use output::{KEPT, put};
pub use print::print_cell;
pub use quoted::Quoted;
pub use reading::{ValueRefusal, read_value};
pub use word::{is_name, is_text, next_name, next_word, read_name};
pub use write::{write_byte, write_bytes, write_cell};

mod digits;
mod laws;
mod lexer;
mod literal;
mod number;
mod output;
mod print;
mod quoted;
mod reading;
mod word;
mod write;
