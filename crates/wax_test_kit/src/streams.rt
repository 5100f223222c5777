//! Readers and writers for tests, that fail, are interrupted or count calls.
ghost use Rattle.std.specs.Prelude.{◌≡◌, Some, []};

use std::alloc::Global;
use std::io;
use std::io::{Read, Write};

/// A reader that yields one byte at a time, and fails after `left` reads.
#[derive(Drop)]
pub struct Slow<'a> {
    /// The bytes that are still to be read.
    pub bytes: &'a [u8],
    /// How many more reads succeed.
    pub left: u64,
}

impl<'a> Slow<'a> {
    /// Creates a reader of these bytes, of which `left` reads succeed.
    pub fn new(bytes: &'a [u8], left: u64) -> Self
        ensures bytes { result.bytes.now ≡ bytes.now }
        ensures left { result.left ≡ left }
    {
        Slow { bytes, left }
    }
}

impl Read for Slow<'_> {
    fn read(&mut self, buf: &mut [u8]) -> io::Result<usize> {
        if self.left == 0 {
            return Err(io::Error::from(io::ErrorKind::BrokenPipe));
        }
        self.left -= 1;
        match (self.bytes.split_first(), buf.first_mut()) {
            (Some((byte, rest)), Some(place)) => {
                *place = *byte;
                self.bytes = rest;
                Ok(1)
            }
            _ => Ok(0),
        }
    }
}

/// A writer that takes `room` bytes, and then fails or takes nothing. Its flushes fail.
#[derive(Drop)]
pub struct Narrow {
    /// The bytes that were taken.
    pub taken: Vec<u8>,
    /// How many more bytes are taken.
    pub room: usize,
    /// True if a write without room fails, and false if it takes nothing.
    pub fails: bool,
}

impl Narrow {
    /// Creates a writer that has taken nothing yet.
    pub fn new(alloc: Global, room: usize, fails: bool) -> Self
        ensures taken { result.taken.items ≡ [] }
        ensures room { result.room ≡ room }
        ensures fails { result.fails ≡ fails }
    {
        Narrow {
            taken: Vec::new(alloc),
            room,
            fails,
        }
    }
}

impl Write for Narrow {
    fn write(&mut self, buf: &[u8]) -> io::Result<usize> {
        let count = self.room.min(buf.len());
        if count < buf.len().min(1) && self.fails {
            return Err(io::Error::from(io::ErrorKind::BrokenPipe));
        }
        self.taken.extend_from_slice(&buf[..count])?;
        self.room -= count;
        Ok(count)
    }

    fn flush(&mut self) -> io::Result<()> {
        Err(io::Error::from(io::ErrorKind::BrokenPipe))
    }
}

/// A stream that forwards each call but one, which is interrupted: the one after `before` others.
#[derive(Drop)]
pub struct Interrupted<T> {
    /// The stream to which calls are forwarded.
    pub inner: T,
    /// How many more calls there are before the one that is interrupted. `None` after it.
    pub before: Option<u64>,
}

impl<T> Interrupted<T> {
    /// Creates a stream that interrupts the call after `before` others.
    pub fn new(inner: T, before: u64) -> Self
        ensures inner { result.inner ≡ inner }
        ensures before { result.before ≡ Some before }
    {
        Interrupted {
            inner,
            before: Some(before),
        }
    }

    fn step(&mut self) -> io::Result<()> {
        match self.before {
            None => {}
            Some(0) => {
                self.before = None;
                return Err(io::Error::from(io::ErrorKind::Interrupted));
            }
            Some(before) => self.before = Some(before - 1),
        }
        Ok(())
    }
}

impl<R: Read> Read for Interrupted<R> {
    fn read(&mut self, buf: &mut [u8]) -> io::Result<usize> {
        self.step()?;
        self.inner.read(buf)
    }
}

impl<W: Write> Write for Interrupted<W> {
    fn write(&mut self, buf: &[u8]) -> io::Result<usize> {
        self.step()?;
        self.inner.write(buf)
    }

    fn flush(&mut self) -> io::Result<()> {
        self.step()?;
        self.inner.flush()
    }
}

/// A stream that counts its calls. It has no bytes to read, and takes all that are written.
#[derive(Drop)]
pub struct Asked {
    /// How many reads there were.
    pub reads: u64,
    /// How many writes there were.
    pub writes: u64,
    /// How many flushes there were.
    pub flushes: u64,
}

impl Read for Asked {
    fn read(&mut self, _buf: &mut [u8]) -> io::Result<usize> {
        self.reads = self.reads.saturating_add(1);
        Ok(0)
    }
}

impl Write for Asked {
    fn write(&mut self, buf: &[u8]) -> io::Result<usize> {
        self.writes = self.writes.saturating_add(1);
        Ok(buf.len())
    }

    fn flush(&mut self) -> io::Result<()> {
        self.flushes = self.flushes.saturating_add(1);
        Ok(())
    }
}
