use std::io::{self, Eprint, Result};

/// The standard input or output, which prints to standard error why the system failed it. It reads and
/// writes the bytes that the stream below it does.
#[derive(Drop)]
pub struct Telling<S: Drop, E: Eprint + Drop> {
    stream: S,
    rt: E,
}

impl<S: Drop, E: Eprint + Drop> Telling<S, E> {
    /// The stream, and the runtime to which its failures are printed.
    pub fn new(stream: S, rt: E) -> Self {
        Telling { stream, rt }
    }
}

impl<S: io::Read + Drop, E: Eprint + Drop> io::Read for Telling<S, E> {
    fn read(&mut self, buf: &mut [u8]) -> Result<usize> {
        let read = self.stream.read(buf);
        if let Err(error) = &read {
            let _ = eprintln!(self.rt; "djq: the standard input can't be read: {error}");
        }
        read
    }
}

impl<S: io::Write + Drop, E: Eprint + Drop> io::Write for Telling<S, E> {
    fn write(&mut self, buf: &[u8]) -> Result<usize> {
        let wrote = self.stream.write(buf);
        match &wrote {
            Ok(0) => {
                let _ = eprintln!(self.rt;
                    "djq: the standard output can't be written: it takes nothing"
                );
            }
            Ok(_) => {}
            Err(error) => {
                let _ = eprintln!(self.rt; "djq: the standard output can't be written: {error}");
            }
        }
        wrote
    }

    fn flush(&mut self) -> Result<()> {
        let flushed = self.stream.flush();
        if let Err(error) = &flushed {
            let _ = eprintln!(self.rt; "djq: the standard output can't be written: {error}");
        }
        flushed
    }
}
