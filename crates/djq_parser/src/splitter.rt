ghost use Rattle.std.specs.Prelude.{◌≡◌, ◌≤◌, length, take};
ghost use Rattle.djq_protocol.specs.Line.{is_blank as is_blank_line, is_long as is_long_line};
ghost use Rattle.djq_protocol.specs.Line.{without_cr};
ghost use Rattle.djq_parser.specs.Splitting.{IsFront, IsFirstLf};

use djq_protocol::limits::LINE_BYTES;
use memchr::memchr;

/// What a session's bytes begin with.
#[derive(Clone, Copy, Debug)]
pub enum Front {
    /// A line: `end` bytes, and the bytes after it begin at `rest`.
    Line {
        /// The number of its bytes, without LF and without one CR before it.
        end: usize,
        /// The place at which the bytes after the line begin.
        rest: usize,
    },
    /// No whole line.
    Dry,
    /// A line that is too long, or that will be.
    Long,
}

/// Cuts bytes into lines.
pub struct Splitter;

impl Splitter {
    /// What the bytes begin with. It looks at no more than 4,098 of them.
    pub fn front(bytes: &[u8]) -> Front
        ensures { IsFront bytes.now result }
    {
        // so many bytes without LF are long in any case
        let front = &bytes[..bytes.len().min(LINE_BYTES + 2)];
        match memchr(b'\n', front) {
            Some(at) => line_at(bytes, at),
            None if is_long(front) => Front::Long,
            None => Front::Dry,
        }
    }
}

/// The line that ends at the first LF.
fn line_at(bytes: &[u8], at: usize) -> Front
    requires { IsFirstLf bytes.now at }
    ensures { IsFront bytes.now result }
{
    let line = &bytes[..at];
    if is_long(line) {
        Front::Long
    } else {
        Front::Line {
            end: trimmed_len(line),
            rest: at + 1,
        }
    }
}

/// Whether bytes before an LF are too many.
fn is_long(line: &[u8]) -> bool
    ensures { result ≡ is_long_line line.now }
{
    let len = line.len();
    len >= LINE_BYTES + 2 || (len == LINE_BYTES + 1 && line[LINE_BYTES] != b'\r')
}

/// The length without one CR at the end.
fn trimmed_len(line: &[u8]) -> usize
    ensures within { result ≤ length line.now }
    ensures trimmed { take result line.now ≡ without_cr line.now }
{
    let len = line.len();
    if len > 0 && line[len - 1] == b'\r' {
        len - 1
    } else {
        len
    }
}

/// Whether the line is empty or of spaces alone.
pub fn is_blank(line: &[u8]) -> bool
    ensures { result ≡ is_blank_line line.now }
{
    line.iter().all(|b| *b == b' ')
}
