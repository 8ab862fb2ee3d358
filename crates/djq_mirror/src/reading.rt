//! What a session was sent, read from a source.
ghost use Rattle.std.specs.Prelude.{◌≡◌, ◌<◌, length, []};
ghost use Rattle.djq_mirror.specs.Mirror.{at_first};
ghost use Rattle.djq_mirror.specs.Follow.{FollowEnds};

use crate::follower::{Follower, Halt};
use djq_io::limits::MOST_READS;
use djq_io::{Read, Source};

/// How reading ended.
#[derive(Clone, Copy, Debug, PartialEq, Eq)]
pub(crate) enum Followed {
    /// The input was read to its end, and each line was followed.
    Whole,
    /// A line couldn't be followed, or couldn't be counted, or memory was wanted.
    Halted(Halt),
    /// A read failed. Each whole line before was followed.
    ReadFault,
}

/// Reads what a session was sent to its end, and follows it, or to the first line that can't be
/// followed. It reads at most as many bytes at a time as the buffer has, and reads nothing after such
/// a line. The mirror holds nothing before.
pub(crate) fn follow<S: Source>(
    follower: &mut Follower,
    source: &mut S,
    buffer: &mut [u8],
) -> Followed
    requires room { 0 < length buffer.old }
    requires first { follower.old.held ≡ at_first }
    requires begun { follower.old.begun ≡ [] }
    requires count { follower.old.count ≡ 0 }
    ensures { FollowEnds result follower.old.name (S.told source.old) (S.told source.new)
        (S.faults source.old) (S.faults source.new) follower.new.held }
{
    for _ in 0..MOST_READS {
        match source.read(buffer) {
            Read::Got(count) => {
                if let Some(halt) = follower.feed(&buffer[..count]) {
                    return Followed::Halted(halt);
                }
            }
            Read::End => {
                return match follower.end() {
                    Some(halt) => Followed::Halted(halt),
                    None => Followed::Whole,
                };
            }
            Read::Failed => return Followed::ReadFault,
        }
    }
    Followed::Halted(Halt::TooMany)
}
