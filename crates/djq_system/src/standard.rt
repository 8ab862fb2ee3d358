use crate::size_limit::{most_bytes, past_limit};
use libc::net::{POLLIN, POLLOUT, poll};
use libc::types::pollfd;
use libc::{SEEK_CUR, STDIN_FILENO, STDOUT_FILENO};
use std::fs::{self, Files};
use std::io::{ErrorKind, Read, Result, Write};

/// The path of the standard output, whatever it is.
const OUTPUT: &str = "/dev/stdout";

/// The standard input, which waits if the stream that it was given doesn't, and continues after a signal.
#[derive(Drop)]
pub struct StandardInput<R: Read + Drop> {
    reader: R,
}

impl<R: Read + Drop> StandardInput<R> {
    /// Over the reader of descriptor 0.
    pub fn new(reader: R) -> Self {
        StandardInput { reader }
    }
}

impl<R: Read + Drop> Read for StandardInput<R> {
    fn read(&mut self, buf: &mut [u8]) -> Result<usize> {
        for _ in 0..u64::MAX {
            match self.reader.read(buf) {
                Err(error) if error.kind() == ErrorKind::Interrupted => {}
                Err(error) if error.kind() == ErrorKind::WouldBlock => wait(STDIN_FILENO, POLLIN),
                read => return read,
            }
        }
        Err(ErrorKind::TimedOut.into())
    }
}

/// The standard output, which waits if the stream that it was given doesn't, and continues after a signal.
///
/// A write that would pass the limit of a file's size, which is read once, fails without being
/// made: it would end the process. If such a file is written before its end, the bytes that follow count as
/// written already.
#[derive(Drop)]
pub struct StandardOutput<W: Write + Drop, F: Files + Drop> {
    writer: W,
    rt: F,
    most_bytes: u64,
}

impl<W: Write + Drop, F: Files + Drop> StandardOutput<W, F> {
    /// Over the writer to descriptor 1, and the runtime that reports the end of a file.
    pub fn new(writer: W, rt: F) -> Self {
        StandardOutput {
            writer,
            rt,
            most_bytes: most_bytes(),
        }
    }

    /// Whether so many bytes more would pass the limit of a file's size.
    fn passes_limit(&self, more: usize) -> bool {
        if self.most_bytes == u64::MAX {
            return false;
        }
        match fs::metadata(&self.rt, OUTPUT) {
            Ok(found) if found.is_file() => {
                let at = u64::try_from(libc::lseek(STDOUT_FILENO, 0, SEEK_CUR)).unwrap_or(0);
                self.most_bytes < at.max(found.len()).saturating_add(more as u64)
            }
            _ => false,
        }
    }
}

impl<W: Write + Drop, F: Files + Drop> Write for StandardOutput<W, F> {
    fn write(&mut self, buf: &[u8]) -> Result<usize> {
        if self.passes_limit(buf.len()) {
            return Err(past_limit());
        }
        for _ in 0..u64::MAX {
            match self.writer.write(buf) {
                Err(error) if error.kind() == ErrorKind::Interrupted => {}
                Err(error) if error.kind() == ErrorKind::WouldBlock => wait(STDOUT_FILENO, POLLOUT),
                wrote => return wrote,
            }
        }
        Err(ErrorKind::TimedOut.into())
    }

    fn flush(&mut self) -> Result<()> {
        self.writer.flush()
    }
}

/// Waits until the system reports that a descriptor is ready, or has failed. If it can't report so, the
/// next call for bytes is answered as before.
fn wait(fd: i32, events: i16) {
    let mut waited = [pollfd {
        fd,
        events,
        revents: 0,
    }];
    let _ = poll(&mut waited, -1);
}
