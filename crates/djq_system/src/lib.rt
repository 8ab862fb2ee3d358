//! What must be believed without a proof: the operating system, as the traits of djq_io and djq_disk
//! see it.
//!
//! [`TcpHub`] is a hub of sessions over TCP, [`FileDisk`] a file and a next one as a disk, [`StdSource`] and
//! [`StdSink`] a reader and a writer of `std::io`, such as [`StandardInput`] and [`StandardOutput`]. Each
//! is a few lines over std, `mio` or `libc`, and each counts its faults.
//!
//! [`StdSource`], [`StdSink`], [`TcpHub`] and [`FileDisk`] note each call with its answer, in a list that exists in the
//! proofs alone and uses no memory. So what is proved of the bytes that are read, written, brought, sent and stored holds
//! of them. That they make the calls that they note has to be read. Which bytes an input has before they are read, and
//! what a crash leaves of a file, no call answers: an [`Oracle`] defines it. A source shows the reading, and a disk the
//! history, that follow from their calls and the oracle, and nothing if an input or a file with that oracle wouldn't have
//! answered so. Some input would always have ([`some_input_is_told`]).
//!
//! What this crate is not: it runs no lines, has no authentication and no encryption, and buffers
//! nothing. What a client doesn't read remains with the server, which ends such a session by its
//! own rule.
//!
//! # Sockets
//!
//! A hub accepts connections at an address, and each is a session: what a client sends are its bytes,
//! and the end of what it sends is the end of its input. One thread handles all turns, over sockets that
//! never wait. The system reports by `epoll` which sockets have changed ([`mio`]), and the hub stores for
//! each whether it may have bytes. A turn visits these places in a circle, starting after the last one that it
//! served, and waits only if none has anything. So a busy client delays the others by one piece at
//! a time, an idle server sleeps, and no reply waits for a clock: a client that accepts bytes again wakes
//! the hub.
//!
//! A turn that is at hand asks the system for no events: it reads from a socket that was reported, until a read
//! finds less than there is room for. Once in 64 turns or 65,536 bytes the next turn isn't at hand, and the system
//! is asked without waiting. A hub is late if 5 ms have passed since its last turn, or since it last began to send.
//!
//! Nothing that a client does is a fault of the hub, only of its session. A read that fails is
//! returned as the end of the input, and a send that fails as a session that is `Gone`. A connection that
//! can't be accepted is only counted.
//!
//! A client that doesn't read costs the others nothing: once a send wrote none of its bytes, the hub answers
//! `Again` for that session by itself, until the system reports that the connection accepts bytes.
//!
//! A connection that begins with a request of HTTP is returned as one whose input ended: a web page can send
//! such a request to any port of its reader's machine. So the first line that isn't empty is looked at as a
//! whole. It remains with the system until it is whole, or is too long to be run, or the client sends no more.
//!
//! ```text
//! a client connects              Opened(1, Client)
//! it sends rel r int             Bytes(1, 10), with the line's end
//! it sends no more               Ended(1)
//! another sends PO               Opened(2, Client)
//! and then ST / HTTP/1.1         Ended(2)
//! nobody sends anything          Idle, after a quarter of a second
//! ```
//!
//! # Files
//!
//! A disk's `open` creates an absent file for its owner alone, and locks it, so that a second server
//! on the same file fails. It syncs the folder, so that a file that was created outlives a crash. For a
//! symbolic link that is the folder of the file itself. A disk has one file open at a
//! time, and a next one beside it. The lock is advisory: a program that doesn't ask for it isn't stopped. If a sync
//! failed, what a read returns needn't be on the disk: a caller that continues has to open the file anew.
//!
//! The next file of `PATH` is `PATH.new`, in the folder of the file itself. It is emptied when it is begun, once it is
//! locked, and gets the owner, the group and the mode of the file. If the system refuses that, it is for its owner
//! alone. `replace` renames it, and syncs the folder. The file that was replaced stays locked, so that a second server
//! that opened it before doesn't get it. And an `open` fails if, once the file is locked, its path is that of another
//! one. A `PATH.new` that a crash leaves is used again. If `replace` failed, the caller ends: which of both files has
//! the name after a crash isn't known then, whatever is synced later.
//!
//! For each call that fails standard error has a line, with the call, the path and the system's reason.
//!
//! # Limits and signals
//!
//! A write past the limit of a file's size would end the process by a signal, without a message. So it
//! isn't made, of the log and of a standard output that is a file: it fails. A read or a write that a signal
//! interrupts is made again. A standard stream that never waits, as another process may have left it, is waited
//! for.
#![tactic(auto)]

mod conn;
mod disk_notes;
mod file_disk;
mod hub_notes;
mod listening;
mod notes;
mod oracle;
mod request;
mod size_limit;
mod standard;
mod std_sink;
mod std_source;
mod tcp_hub;

pub use file_disk::FileDisk;
pub use oracle::Oracle;
pub use standard::{StandardInput, StandardOutput};
pub use std_sink::StdSink;
pub use std_source::{StdSource, some_input_is_told};
pub use tcp_hub::{PLACES, TcpHub};
