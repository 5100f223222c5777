//! A reader or a writer that counts its calls and its failures.
ghost use Rattle.std.specs.{Prelude.{◌≡◌, ◌≤◌, is_err}, Io.{ReadsAtMost, WritesAtMost}};
ghost use Rattle.std.specs.Io.KnownBytes.{Keeps, ReadConsumes, WriteAppends};
ghost use Rattle.wax_lines.specs.Counts.{greatest_count, one_more, one_more_if, is_failed_write};
ghost use Rattle.wax_lines.specs.Counts.{bytes_passed};

use crate::once::{ReadOnce, WriteOnce};
use std::io;
use std::io::{Read, Write};

/// A reader or a writer that counts its calls and its failures, each up to `u64::MAX`. A call is a
/// call of `read`, `write` or `flush`. A failure is any error of these, including an interrupted
/// call, and a write of some bytes that takes none of them.
#[derive(Drop)]
pub struct Counted<T> {
    inner: T,
    calls: u64,
    failures: u64,
    last_len: usize,
    pub ghost fit: { calls ≤ greatest_count },
    pub ghost at_most_calls: { failures ≤ calls },
}

impl<T> Counted<T> {
    /// Wraps a reader or a writer, with no calls and no failures so far.
    pub fn new(inner: T) -> Self
        ensures inner { result.inner ≡ inner }
        ensures calls { result.calls ≡ 0 }
        ensures failures { result.failures ≡ 0 }
        ensures last_len { result.last_len ≡ 0 }
    {
        Counted {
            inner,
            calls: 0,
            failures: 0,
            last_len: 0,
        }
    }

    /// Returns the number of calls.
    pub fn calls(&self) -> u64
        ensures { result ≡ self.now.calls }
    {
        self.calls
    }

    /// Returns the number of calls that failed.
    pub fn failures(&self) -> u64
        ensures { result ≡ self.now.failures }
    {
        self.failures
    }

    /// Returns how many bytes the last call of `read` or `write` read or wrote: none if it failed.
    pub fn last_len(&self) -> usize
        ensures { result ≡ self.now.last_len }
    {
        self.last_len
    }

    /// Returns the reader or the writer inside.
    pub fn into_inner(self) -> T
        ensures { result ≡ self.inner }
    {
        self.inner
    }
}

/// Returns how many bytes a call read or wrote: none if it failed.
fn passed(answer: &io::Result<usize>) -> usize
    ensures { result ≡ bytes_passed answer.now }
{
    match answer {
        Ok(count) => *count,
        Err(_) => 0,
    }
}

impl<R: ReadOnce> Read for Counted<R> {
    ghost remaining = { λ counted. R.remaining counted.inner };

    fn read(&mut self, buf: &mut [u8]) -> io::Result<usize>
        ensures bound { ReadsAtMost result buf.new }
        ensures bytes { ReadConsumes
            (R.remaining self.old.inner) (R.remaining self.new.inner) result buf.new }
        ensures forwarded { R.reads self.old.inner buf.old result self.new.inner buf.new }
        ensures calls { self.new.calls ≡ one_more self.old.calls }
        ensures failures { self.new.failures ≡ one_more_if (is_err result) self.old.failures }
        ensures last_len { self.new.last_len ≡ bytes_passed result }
    {
        self.calls = self.calls.saturating_add(1);
        let answer = self.inner.read_once(buf);
        self.last_len = passed(&answer);
        if answer.is_err() {
            self.failures = self.failures.saturating_add(1);
        }
        answer
    }
}

impl<W: WriteOnce> Write for Counted<W> {
    ghost contents = { λ counted. W.contents counted.inner };

    fn write(&mut self, buf: &[u8]) -> io::Result<usize>
        ensures bound { WritesAtMost result buf.now }
        ensures bytes { WriteAppends
            (W.contents self.old.inner) (W.contents self.new.inner) result buf.now }
        ensures forwarded { W.writes self.old.inner buf.now result self.new.inner }
        ensures calls { self.new.calls ≡ one_more self.old.calls }
        ensures failures { self.new.failures
            ≡ one_more_if (is_failed_write result buf.now) self.old.failures }
        ensures last_len { self.new.last_len ≡ bytes_passed result }
    {
        self.calls = self.calls.saturating_add(1);
        let answer = self.inner.write_once(buf);
        self.last_len = passed(&answer);
        let has_failed = match &answer {
            Ok(taken) => *taken == 0 && !buf.is_empty(),
            Err(_) => true,
        };
        if has_failed {
            self.failures = self.failures.saturating_add(1);
        }
        answer
    }

    fn flush(&mut self) -> io::Result<()>
        ensures bytes { Keeps (W.contents self.old.inner) (W.contents self.new.inner) }
        ensures forwarded { W.flushes self.old.inner result self.new.inner }
        ensures calls { self.new.calls ≡ one_more self.old.calls }
        ensures failures { self.new.failures ≡ one_more_if (is_err result) self.old.failures }
        ensures last_len { self.new.last_len ≡ self.old.last_len }
    {
        self.calls = self.calls.saturating_add(1);
        let answer = self.inner.flush_once();
        if answer.is_err() {
            self.failures = self.failures.saturating_add(1);
        }
        answer
    }
}
