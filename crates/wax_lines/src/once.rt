//! Single calls of a reader or a writer, for contracts of what calls them.
ghost use Rattle.std.specs.{Prelude.{ℕ, List, Result, ⊤}, Io.{ReadsAtMost, WritesAtMost}};
ghost use Rattle.std.specs.{Io.KnownBytes.{Keeps, ReadConsumes, WriteAppends}, declared.io.Error.Error};

use std::io;
use std::io::{Read, Write};

/// A reader with one call of it. Every reader is one. The trait says of the call whatever relation it
/// keeps, so code that is proved for each `ReadOnce` can return a result only if the call returned it.
pub trait ReadOnce: Read {
    // What one call may do: the reader and the buffer before it, its result, and both after it.
    ghost reads: { Self → List ℕ → Result ℕ Error → Self → List ℕ → Type 0 };

    /// Calls `read`.
    fn read_once(&mut self, buf: &mut [u8]) -> io::Result<usize>
        ensures bound { ReadsAtMost result buf.new }
        ensures bytes { ReadConsumes (Self.remaining self.old) (Self.remaining self.new) result buf.new }
        ensures reads { reads self.old buf.old result self.new buf.new };
}

impl<R: Read> ReadOnce for R {
    ghost reads = { λ _ _ _ _ _. ⊤ };

    fn read_once(&mut self, buf: &mut [u8]) -> io::Result<usize> {
        self.read(buf)
    }
}

/// A writer with one call of it, likewise. Every writer is one.
pub trait WriteOnce: Write {
    // What one write may do: the writer before it, the bytes, its result, and the writer after it.
    ghost writes: { Self → List ℕ → Result ℕ Error → Self → Type 0 };

    // What one flush may do: the writer before it, its result, and the writer after it.
    ghost flushes: { Self → Result (Unit {0}) Error → Self → Type 0 };

    /// Calls `write`.
    fn write_once(&mut self, buf: &[u8]) -> io::Result<usize>
        ensures bound { WritesAtMost result buf.now }
        ensures bytes { WriteAppends (Self.contents self.old) (Self.contents self.new) result buf.now }
        ensures writes { writes self.old buf.now result self.new };

    /// Calls `flush`.
    fn flush_once(&mut self) -> io::Result<()>
        ensures bytes { Keeps (Self.contents self.old) (Self.contents self.new) }
        ensures flushes { flushes self.old result self.new };
}

impl<W: Write> WriteOnce for W {
    ghost writes = { λ _ _ _ _. ⊤ };

    ghost flushes = { λ _ _ _. ⊤ };

    fn write_once(&mut self, buf: &[u8]) -> io::Result<usize> {
        self.write(buf)
    }

    fn flush_once(&mut self) -> io::Result<()> {
        self.flush()
    }
}
