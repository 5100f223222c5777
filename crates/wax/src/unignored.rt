//! Lines of a stream that an ignore list doesn't ignore.
ghost use Rattle.std.specs.Prelude.{◌≡◌, ◌<◌, ◌⊎◌, IfErr, IfOk, IsErrOf};
ghost use Rattle.wax_lines.specs.{Counts.greatest_count, Lines.{Filtered, Stopped, WritesMeant}};
ghost use Rattle.wax.specs.Ignoring.{IsUnignored};

use crate::ignoring::IgnoreList;
use std::alloc::Global;
use std::io::{Read, Write};
use wax_lines::{Counted, LineWriter, LinesError, filter_lines_by, push_line};
use wax_query::diagnostics::NoMemory;
use wax_query::matching::CandidatePath;

/// Writes each line of the input that the ignore list doesn't ignore, with a line feed, and returns
/// the number of lines that aren't UTF-8, at most `u64::MAX`. Nothing is written for these. A line
/// ends at a line feed or, if it isn't empty, at the end of the input. The last line of the list that
/// matches it decides, as for `IgnoreList::is_ignored`; a line that none matches is written.
///
/// It allocates for the longest line, and for a few chunks of 65,536 bytes. The list keeps what it
/// learns from each line for the next ones, as by `IgnoreList::is_ignored_cached`, so it can be used
/// for one stream after another.
///
/// ```
/// use wax::{Counted, filter_unignored};
///
/// let mut list = IgnoreList::parse(alloc, "**/*.o\n!keep.o\n")?;
/// let mut input = Counted::new("a/b.o\nkeep.o\n".as_bytes());
/// let mut output = Counted::new(rt.stdout());
/// let not_text = filter_unignored(alloc, &mut input, &mut output, &mut list)?; // prints keep.o
/// println!(rt; "{not_text}")?; // 0
/// ```
///
/// # Errors
///
/// Returns the errors of `filter_lines`, after the same part of the output has been written: `Read`
/// (18), `Memory` (10) and `Write` (19). The list can be used again.
pub fn filter_unignored<R: Read, W: Write>(
    alloc: Global,
    input: &mut Counted<R>,
    output: &mut Counted<W>,
    list: &mut IgnoreList,
) -> Result<u64, LinesError>
    ensures done { IfOk result (Filtered (WritesMeant (IsUnignored list.old))
        (R.remaining input.old.inner) (R.remaining input.new.inner)
        (W.contents output.old.inner) (W.contents output.new.inner)) }
    ensures stopped { IfErr result (Stopped (WritesMeant (IsUnignored list.old))
        (R.remaining input.old.inner) (R.remaining input.new.inner)
        (W.contents output.old.inner) (W.contents output.new.inner)) }
    ensures read_failed { IsErrOf result LinesError.Read →
        (input.old.failures < input.new.failures) ⊎ (input.new.calls ≡ greatest_count) }
    ensures write_failed { IsErrOf result LinesError.Write →
        (output.old.failures < output.new.failures) ⊎ (output.new.failures ≡ greatest_count) }
    ensures same { list.new ≡ list.old }
{
    filter_lines_by(alloc, input, output, list)
}

impl LineWriter for IgnoreList {
    ghost use Rattle.wax.specs.{Ignoring.WritesUnignored, declared.ignoring.IgnoreList.IgnoreList};

    ghost View = { IgnoreList };

    ghost view = { λ list. list };

    ghost writes = { WritesUnignored };

    fn write_line(&mut self, line: &str, out: &mut Vec<u8>) -> Result<(), NoMemory> {
        let alloc = *out.allocator();
        if !self.is_ignored_cached(alloc, &CandidatePath::from(line))? {
            push_line(line, out)?;
        }
        Ok(())
    }
}
