//! The first word of a line.
ghost use Rattle.std.specs.Prelude.{◌≡◌};
ghost use Rattle.djq_protocol.specs.Grammar.{keyword_of};

use djq_protocol::Keyword;
use djq_value::is_text;

/// The keyword that a word is.
pub(crate) fn read_keyword(word: &[u8]) -> Option<Keyword>
    ensures { result ≡ keyword_of word.now }
{
    if is_text(word, b"rel") {
        Some(Keyword::Rel)
    } else if is_text(word, b"add") {
        Some(Keyword::Add)
    } else if is_text(word, b"del") {
        Some(Keyword::Del)
    } else if is_text(word, b"query") {
        Some(Keyword::Query)
    } else if is_text(word, b"union") {
        Some(Keyword::Union)
    } else if is_text(word, b"drop") {
        Some(Keyword::Drop)
    } else if is_text(word, b"open") {
        Some(Keyword::Open)
    } else if is_text(word, b"next") {
        Some(Keyword::Next)
    } else if is_text(word, b"close") {
        Some(Keyword::Close)
    } else if is_text(word, b"has") {
        Some(Keyword::Has)
    } else if is_text(word, b"watch") {
        Some(Keyword::Watch)
    } else if is_text(word, b"unwatch") {
        Some(Keyword::Unwatch)
    } else if is_text(word, b"explain") {
        Some(Keyword::Explain)
    } else if is_text(word, b"shape") {
        Some(Keyword::Shape)
    } else if is_text(word, b"batch") {
        Some(Keyword::Batch)
    } else if is_text(word, b"done") {
        Some(Keyword::Done)
    } else if is_text(word, b"abandon") {
        Some(Keyword::Abandon)
    } else if is_text(word, b"quit") {
        Some(Keyword::Quit)
    } else if is_text(word, b"stop") {
        Some(Keyword::Stop)
    } else {
        None
    }
}
