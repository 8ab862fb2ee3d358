/// The most bytes of a line that a mirror reads, without its LF.
pub const REPLY_LINE_BYTES: usize = 16_384;

/// How far a mirror knows the answers of its query.
#[derive(Clone, Copy, Debug, PartialEq, Eq)]
pub enum Mode {
    /// They aren't known.
    Idle,
    /// They are being listed, since a cursor was opened.
    Listing,
    /// All of them are known.
    Live,
}
