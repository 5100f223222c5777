//! Lines that a program matches, and what it captures of them.
ghost use Rattle.std.specs.Prelude.{◌≡◌, ◌≤◌, ◌<◌, ◌⊎◌, [], length, IfOk, IfErr, OnOk, IsErrOf};
ghost use Rattle.wax_lines.specs.Counts.{greatest_count};
ghost use Rattle.wax_lines.specs.Lines.{Filtered, Stopped, StoppedShort, WritesCaptures, WritesMeant};
ghost use Rattle.wax_lines.specs.inner.Progress.{Finished, Halted, SieveSifted};

use crate::counted::Counted;
use std::alloc::{AllocError, Global};
use std::io::{Read, Write};
use thiserror::Error;
use wax_query::diagnostics::NoMemory;
use wax_query::matching::BuildMatcher;

mod feed;
mod line_writer;
mod sieve;

pub use line_writer::LineWriter;
use line_writer::{CapturedLines, MatchingLines};
use sieve::Sieve;

/// How many bytes are read at once. Output is written once that many bytes of it wait.
const CHUNK: usize = 65536;

/// Why a filter of lines stopped.
#[derive(Clone, Copy, Debug, PartialEq, Eq, Error)]
pub enum LinesError {
    /// A read failed, or the reader's calls can't be counted any further (18).
    #[error("read failed")]
    Read,
    /// A write failed or took nothing (19).
    #[error("write failed")]
    Write,
    /// Allocation failed (10).
    #[error("no memory")]
    Memory,
}

impl From<NoMemory> for LinesError {
    ghost use Rattle.std.specs.Prelude.{◌≡◌};
    ghost use Rattle.wax_lines.specs.declared.lines.LinesError.TheVariants.{Memory};

    ghost from_gives = { λ _ error. error ≡ Memory };

    fn from(_: NoMemory) -> Self {
        LinesError::Memory
    }
}

impl From<AllocError> for LinesError {
    ghost use Rattle.std.specs.Prelude.{◌≡◌};
    ghost use Rattle.wax_lines.specs.declared.lines.LinesError.TheVariants.{Memory};

    ghost from_gives = { λ _ error. error ≡ Memory };

    fn from(_: AllocError) -> Self {
        LinesError::Memory
    }
}

/// Writes each line of the input that the program matches, with a line feed, and returns the number
/// of lines that aren't UTF-8, at most `u64::MAX`. Nothing is written for these. A line ends at a
/// line feed or, if it isn't empty, at the end of the input.
///
/// It allocates for the longest line, for a few chunks of 65,536 bytes, and for one matcher of the
/// program.
///
/// # Errors
///
/// Returns `Read` (18) if a read fails, or if the reader has counted `u64::MAX` calls. The output
/// of all complete lines that were read has been written.
///
/// Returns `Memory` (10) if allocation fails. The output has been written as for `Read`, except for
/// lines that end in the last read, of at most 65,536 bytes.
///
/// Returns `Write` (19) if a write fails or takes nothing. A prefix of the output has been written.
pub fn filter_lines<'p, R: Read, W: Write, P: BuildMatcher<'p>>(
    alloc: Global,
    input: &mut Counted<R>,
    output: &mut Counted<W>,
    program: &'p P,
) -> Result<u64, LinesError>
    ensures done { IfOk result (Filtered (WritesMeant (P.means program.now))
        (R.remaining input.old.inner) (R.remaining input.new.inner)
        (W.contents output.old.inner) (W.contents output.new.inner)) }
    ensures stopped { IfErr result (Stopped (WritesMeant (P.means program.now))
        (R.remaining input.old.inner) (R.remaining input.new.inner)
        (W.contents output.old.inner) (W.contents output.new.inner)) }
    ensures of_last_read { IsErrOf result LinesError.Memory
        → StoppedShort (WritesMeant (P.means program.now))
        (R.remaining input.old.inner) (R.remaining input.new.inner)
        (W.contents output.old.inner) (W.contents output.new.inner) input.new.last_len }
    ensures read_failed { IsErrOf result LinesError.Read →
        (input.old.failures < input.new.failures) ⊎ (input.new.calls ≡ greatest_count) }
    ensures write_failed { IsErrOf result LinesError.Write →
        (output.old.failures < output.new.failures) ⊎ (output.new.failures ≡ greatest_count) }
{
    let matcher = program.build_matcher(alloc)?;
    filter_lines_by(alloc, input, output, &mut MatchingLines { matcher })
}

/// Writes each line of the input that the program matches, with its captures, a tab before each,
/// and a line feed at the end. Returns the number of lines that aren't UTF-8, at most `u64::MAX`.
/// Nothing is written for these. A line ends at a line feed or, if it isn't empty, at the end of
/// the input.
///
/// It allocates for the longest line with its captures, for a few chunks of 65,536 bytes, and for
/// one matcher of the program. Only lines that the matcher accepts are captured from.
///
/// # Errors
///
/// Returns the errors of `filter_lines`, after the same part of the output has been written. A line
/// is written with all its captures or, if allocation fails for it, not at all.
pub fn capture_lines<'p, R: Read, W: Write, P: BuildMatcher<'p>>(
    alloc: Global,
    input: &mut Counted<R>,
    output: &mut Counted<W>,
    program: &'p P,
) -> Result<u64, LinesError>
    ensures done { IfOk result (Filtered (WritesCaptures (P.means program.now) (P.captured program.now))
        (R.remaining input.old.inner) (R.remaining input.new.inner)
        (W.contents output.old.inner) (W.contents output.new.inner)) }
    ensures stopped { IfErr result (Stopped (WritesCaptures (P.means program.now) (P.captured program.now))
        (R.remaining input.old.inner) (R.remaining input.new.inner)
        (W.contents output.old.inner) (W.contents output.new.inner)) }
    ensures of_last_read { IsErrOf result LinesError.Memory
        → StoppedShort (WritesCaptures (P.means program.now) (P.captured program.now))
        (R.remaining input.old.inner) (R.remaining input.new.inner)
        (W.contents output.old.inner) (W.contents output.new.inner) input.new.last_len }
    ensures read_failed { IsErrOf result LinesError.Read →
        (input.old.failures < input.new.failures) ⊎ (input.new.calls ≡ greatest_count) }
    ensures write_failed { IsErrOf result LinesError.Write →
        (output.old.failures < output.new.failures) ⊎ (output.new.failures ≡ greatest_count) }
{
    let matcher = program.build_matcher(alloc)?;
    let mut line_writer = CapturedLines {
        alloc,
        program,
        matcher,
    };
    filter_lines_by(alloc, input, output, &mut line_writer)
}

/// Writes what the writer of lines makes of each line of the input, and returns the number of lines
/// that aren't UTF-8, at most `u64::MAX`. Nothing is written for these. A line ends at a line feed
/// or, if it isn't empty, at the end of the input.
///
/// It allocates for the longest line with its output, and for a few chunks of 65,536 bytes.
///
/// # Errors
///
/// Returns the errors of `filter_lines`, after the same part of the output has been written.
pub fn filter_lines_by<R: Read, W: Write, L: LineWriter>(
    alloc: Global,
    input: &mut Counted<R>,
    output: &mut Counted<W>,
    line_writer: &mut L,
) -> Result<u64, LinesError>
    ensures done { IfOk result (Filtered (L.writes (L.view line_writer.old))
        (R.remaining input.old.inner) (R.remaining input.new.inner)
        (W.contents output.old.inner) (W.contents output.new.inner)) }
    ensures stopped { IfErr result (Stopped (L.writes (L.view line_writer.old))
        (R.remaining input.old.inner) (R.remaining input.new.inner)
        (W.contents output.old.inner) (W.contents output.new.inner)) }
    ensures of_last_read { IsErrOf result LinesError.Memory
        → StoppedShort (L.writes (L.view line_writer.old))
        (R.remaining input.old.inner) (R.remaining input.new.inner)
        (W.contents output.old.inner) (W.contents output.new.inner) input.new.last_len }
    ensures read_failed { IsErrOf result LinesError.Read →
        (input.old.failures < input.new.failures) ⊎ (input.new.calls ≡ greatest_count) }
    ensures write_failed { IsErrOf result LinesError.Write →
        (output.old.failures < output.new.failures) ⊎ (output.new.failures ≡ greatest_count) }
    ensures same { L.view line_writer.new ≡ L.view line_writer.old }
{
    let mut chunk = vec![in alloc; 0u8; CHUNK]?;
    let mut sieve = Sieve::new(alloc);
    let taken = take_all(input, output, line_writer, &mut chunk, &mut sieve);
    sieve.write_out(output)?;
    taken?;
    Ok(sieve.not_text())
}

// Reads the whole input into the sieve, and writes what waits once it is long. The last of it still
// waits at the end, even after an error.
fn take_all<R: Read, W: Write, L: LineWriter>(
    input: &mut Counted<R>,
    output: &mut Counted<W>,
    line_writer: &mut L,
    chunk: &mut [u8],
    sieve: &mut Sieve,
) -> Result<(), LinesError>
    requires room { length chunk.old ≡ CHUNK }
    requires fresh { SieveSifted (L.writes (L.view line_writer.old)) [] [] sieve.old }
    ensures done { OnOk result (Finished (L.writes (L.view line_writer.old))
        (R.remaining input.old.inner) (R.remaining input.new.inner)
        (W.contents output.old.inner) (W.contents output.new.inner) sieve.new) }
    ensures stopped { IfErr result (Halted (L.writes (L.view line_writer.old))
        (R.remaining input.old.inner) (R.remaining input.new.inner)
        (W.contents output.old.inner) (W.contents output.new.inner) input.new.last_len sieve.new) }
    ensures read_failed { IsErrOf result LinesError.Read →
        (input.old.failures < input.new.failures) ⊎ (input.new.calls ≡ greatest_count) }
    ensures write_failed { IsErrOf result LinesError.Write →
        (output.old.failures < output.new.failures) ⊎ (output.new.failures ≡ greatest_count) }
    ensures steady { output.old.failures ≤ output.new.failures }
    ensures same { L.view line_writer.new ≡ L.view line_writer.old }
{
    while input.calls() < u64::MAX {
        let Ok(count) = input.read(chunk) else {
            return Err(LinesError::Read);
        };
        if count == 0 {
            sieve.take_last(line_writer)?;
            return Ok(());
        }
        sieve.take(line_writer, &chunk[..count])?;
        if sieve.waiting() >= CHUNK {
            sieve.write_out(output)?;
        }
    }
    Err(LinesError::Read)
}
