//! A disk with one file and a next one beside it, and what a crash may leave of the file at any moment.
//!
//! A [`Disk`] opens, measures, reads, writes and syncs one file. Contracts see its history, if it records one:
//! the paths that were opened, the file as it was at each earlier moment, and as it is. The definitions state
//! which images a crash may leave of each of these files. Every byte that was synced and not written since
//! is as it was, and all else may be anything, also the length past the synced one. So "whatever a crash
//! leaves, at every moment since" is a property of a list of files, and stretches of time compose as lists
//! do. And every disk shows whether it is open: no call but an open may be made of it before.
//!
//! A next file is begun, written and synced beside the file, and nothing of it counts. Then it replaces the file, at
//! once. So a file that is made as a next one is never seen in part: a crash leaves the file before, or, if the next
//! file was synced, the new one as a whole.
//!
//! What it isn't for: it has no names of files, no folders and no third file, it buffers nothing, and
//! it doesn't retry what failed. The next file isn't read before it has replaced the file.
//!
//! What surprises: a write that failed may have left any bytes in its part, and counts as written. A
//! sync that failed counts as none. After a replacement that failed, either of both files may be the file. A
//! next file that wasn't synced leaves any bytes once it has replaced the file. Within a call there is no
//! further moment, since what a crash leaves in its middle is among the images before or after it.
//!
//! [`MemDisk`] is in memory, records its whole history and its calls, and fails only at the calls that were set
//! to fail. If a growth is refused, it still answers, and records nothing from then on. [`NoDisk`] stores
//! nothing, for a program without a file.
//!
//! ```text
//! synced  a b c d          write e f at 1       what a crash leaves: a ? ? d, of any length from 4 on
//!                          sync                 what a crash leaves: a e f d
//!
//! begin_next               write_next x y at 0  what a crash leaves: a e f d
//! sync_next                replace              what a crash leaves: x y
//! ```
//!
//! Two calls serve every disk: [`fill`] reads a whole buffer over short reads, and [`write_down`] writes
//! a piece and syncs it, after which a crash at any moment has left everything outside the piece's part.
//!
//! How it works inside: a disk in memory is its file's first bytes and its calls, and its history is
//! folded from them.
#![tactic(auto)]

mod call_log;
mod disk;
mod filling;
mod mem_disk;
mod no_disk;
mod writing_down;

ghost use Rattle.djq_disk.specs.Leaving.{StaysAnImage};

pub use call_log::DiskCall;
pub use disk::{Disk, DiskDid, DiskLen, DiskOpen, DiskRead};
pub use filling::{Filled, fill};
pub use mem_disk::MemDisk;
pub use no_disk::NoDisk;
pub use writing_down::write_down;

/// A file as it reads is one of the images that a crash may leave, and stays so in each call. So does the next file.
pub fn stays_an_image()
    ensures { StaysAnImage }
{}
