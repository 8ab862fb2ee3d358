//! How a connection begins that a web page opened.
ghost use Rattle.std.specs.Prelude.{◌≤◌, length};
ghost use Rattle.djq_system.specs.Request.{BeginsSo};

/// How requests of HTTP begin that a browser sends for a page of whatever origin, also if no
/// version follows. No line of the protocol begins so.
const REQUESTS: [&[u8]; 7] = [
    b"GET /",
    b"POST /",
    b"HEAD /",
    b"PUT /",
    b"PATCH /",
    b"DELETE /",
    b"OPTIONS ",
];

/// How many bytes a line has at most that is run, without those that end it.
const LONGEST_LINE: usize = 4096;

/// How many bytes the version of HTTP has at the end of a request's first line.
const VERSION_BYTES: usize = 8;

/// How a connection begins.
#[derive(Clone, Copy, Debug, PartialEq, Eq)]
pub(crate) enum Beginning {
    /// With so many bytes of empty lines, after which any bytes may follow.
    EmptyLines(usize),
    /// As a request of HTTP does.
    Request,
    /// With a line that is no request, or one that is too long to be run.
    Line,
    /// With a first part of a line, which may be a request's.
    Part,
}

/// How a connection begins whose first bytes are these. A request is one of the best known methods
/// before a path, or a line whose last word is a version of HTTP.
pub(crate) fn beginning_of(bytes: &[u8]) -> Beginning
    ensures { BeginsSo result bytes.now }
{
    let blanks = count_blanks(bytes);
    if let Some(end) = bytes[..blanks].iter().rposition(|byte| *byte == b'\n') {
        return Beginning::EmptyLines(end + 1);
    }
    let words = &bytes[blanks..];
    if REQUESTS.iter().any(|start| words.starts_with(start)) {
        return Beginning::Request;
    }
    match bytes.iter().position(|byte| *byte == b'\n') {
        None if is_too_long(bytes) => Beginning::Line,
        None => Beginning::Part,
        Some(end) if names_version(&bytes[..end]) => Beginning::Request,
        Some(_) => Beginning::Line,
    }
}

/// Whether these bytes of a line are more than those of one that is run. The last may belong to its end.
fn is_too_long(bytes: &[u8]) -> bool {
    let line = bytes.strip_suffix(b"\r").unwrap_or(bytes);
    LONGEST_LINE < line.len()
}

/// How many blanks precede all else.
fn count_blanks(bytes: &[u8]) -> usize
    ensures { result ≤ length bytes.now }
{
    match bytes.iter().position(|byte| !is_blank(*byte)) {
        Some(at) => at,
        None => bytes.len(),
    }
}

/// Whether a byte is a space, or ends a line.
fn is_blank(byte: u8) -> bool {
    byte == b' ' || byte == b'\r' || byte == b'\n'
}

/// Whether the last word of a line is a version of HTTP, as `HTTP/1.1`.
fn names_version(line: &[u8]) -> bool {
    let words = match line.iter().rposition(|byte| !is_blank(*byte)) {
        Some(last) => &line[..=last],
        None => return false,
    };
    match words.len().checked_sub(VERSION_BYTES) {
        Some(at) => words[at..].starts_with(b"HTTP/"),
        None => false,
    }
}
