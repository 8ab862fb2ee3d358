//! What a word may be.
ghost use Rattle.std.specs.Prelude.{◌≡◌, decimal};
ghost use Rattle.djq_model.specs.Data.{bytes_eq};
ghost use Rattle.djq_mirror.specs.Replies.{is_printed_variable as is_variable_of};
ghost use Rattle.djq_mirror.specs.Reading.{is_edge_word, is_label_word, is_printed_number as is_number_of};

use crate::parts::Parts;
use djq_value::{is_name, is_text, read_natural};
use itoa::Buffer;

/// Whether a word is a number of 64 bits as it is printed.
pub(crate) fn is_number(word: &[u8]) -> bool
    ensures { result ≡ is_number_of word.now }
{
    match read_natural(word) {
        Some(number) => is_decimal(word, number),
        None => false,
    }
}

/// Whether a word is what a number is printed as.
fn is_decimal(word: &[u8], number: u64) -> bool
    ensures { result ≡ bytes_eq word.now (decimal number) }
{
    let mut buffer = Buffer::new();
    word == buffer.format(number).as_bytes()
}

/// Whether a word is a variable: a name, or a hole.
fn is_variable(word: &[u8]) -> bool
    ensures { result ≡ is_variable_of word.now }
{
    is_name(word) || is_text(word, b"_")
}

/// Whether a word is variables with commas between them.
pub(crate) fn is_edge(word: &[u8]) -> bool
    ensures { result ≡ is_edge_word word.now }
{
    let mut parts = Parts::behind(Some(word), b',');
    'parts: while let Some(part) = parts.next() {
        if !is_variable(part) {
            return false;
        }
    }
    true
}

/// Whether a word is a label.
pub(crate) fn is_label(word: &[u8]) -> bool
    ensures { result ≡ is_label_word word.now }
{
    is_text(word, b"-") || is_edge(word)
}
