//! Readers and writers for tests, which transfer few bytes at a time or fail.

use std::io;
use std::io::{Read, Write};

/// A reader that returns at most `at_once` bytes at a time, and fails with the given kind of error
/// after the last byte.
#[derive(Drop)]
pub(crate) struct Broken<'a> {
    pub(crate) bytes: &'a [u8],
    pub(crate) at_once: usize,
    pub(crate) kind: io::ErrorKind,
}

impl Read for Broken<'_> {
    fn read(&mut self, buf: &mut [u8]) -> io::Result<usize> {
        if self.bytes.is_empty() {
            return Err(io::Error::from(self.kind));
        }
        let size = buf.len().min(self.at_once);
        self.bytes.read(&mut buf[..size])
    }
}

/// A reader that returns one byte at a time.
#[derive(Drop)]
pub(crate) struct Slow<'a>(pub(crate) &'a [u8]);

impl Read for Slow<'_> {
    fn read(&mut self, buf: &mut [u8]) -> io::Result<usize> {
        let size = buf.len().min(1);
        self.0.read(&mut buf[..size])
    }
}

/// A writer that fails every write, and counts the writes.
#[derive(Drop)]
pub(crate) struct Closed(pub(crate) u32);

impl Write for Closed {
    fn write(&mut self, _buf: &[u8]) -> io::Result<usize> {
        self.0 = self.0.saturating_add(1);
        Err(io::Error::from(io::ErrorKind::BrokenPipe))
    }

    fn flush(&mut self) -> io::Result<()> {
        Ok(())
    }
}

/// A writer that accepts every write, and fails to flush.
#[derive(Drop)]
pub(crate) struct Unflushed(pub(crate) Vec<u8>);

impl Write for Unflushed {
    fn write(&mut self, buf: &[u8]) -> io::Result<usize> {
        self.0.write(buf)
    }

    fn flush(&mut self) -> io::Result<()> {
        Err(io::Error::from(io::ErrorKind::Other))
    }
}

/// A writer that accepts a limited number of bytes, and no bytes after that.
#[derive(Drop)]
pub(crate) struct Full {
    pub(crate) bytes: Vec<u8>,
    pub(crate) room: usize,
}

impl Write for Full {
    fn write(&mut self, buf: &[u8]) -> io::Result<usize> {
        let size = buf.len().min(self.room);
        self.room -= size;
        self.bytes.write(&buf[..size])
    }

    fn flush(&mut self) -> io::Result<()> {
        Ok(())
    }
}

/// A writer that accepts one byte at a time, and interrupts every other write.
#[derive(Drop)]
pub(crate) struct Interrupting {
    pub(crate) bytes: Vec<u8>,
    pub(crate) interrupts: bool,
}

impl Write for Interrupting {
    fn write(&mut self, buf: &[u8]) -> io::Result<usize> {
        self.interrupts = !self.interrupts;
        if self.interrupts {
            return Err(io::Error::from(io::ErrorKind::Interrupted));
        }
        let size = buf.len().min(1);
        self.bytes.write(&buf[..size])
    }

    fn flush(&mut self) -> io::Result<()> {
        Ok(())
    }
}
