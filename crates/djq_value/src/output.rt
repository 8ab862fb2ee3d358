ghost use Rattle.djq_value.specs.Output.{Puts};

use bytes::BytesMut;
use djq_model::NoMem;

/// The number of bytes of room that remain after the queued bytes: enough for a session's last
/// line.
pub const KEPT: usize = 32;

/// Appends a piece, and leaves [`KEPT`] bytes of room.
///
/// # Errors
///
/// `NoMem` is returned only if the room is too small and can't grow; the output is then as before.
pub fn put(out: &mut BytesMut, piece: &[u8]) -> Result<(), NoMem>
    ensures { Puts out.old out.new piece.now result }
{
    out.reserve(piece.len() + KEPT)?;
    out.extend_reserved(piece);
    Ok(())
}
