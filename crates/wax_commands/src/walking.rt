//! The command `walk`.
ghost use Rattle.std.specs.{Fn.FnReturnsAt, Prelude.◌≡◌};
ghost use Rattle.wax_command_line.specs.{Commands.WalkRequest, WalkArguments.IsRead};
ghost use Rattle.wax_commands.specs.{Streams.{stream_of, writers}, Walked.WalkEnds};

use crate::building::{built, built_filters};
use crate::faults::say_no_memory;
use crate::files::FileFault;
use crate::status::{DONE, FAILED, HAS_ERRORS};
use std::alloc::Global;
use std::io::Write;
use wax::walk::{Directory, WalkBehavior};
use wax::{Counted, LinesError};
use wax_command_line::{WalkArguments, write_wanted};

/// Builds the glob, then the filters in the order of the arguments, and then writes the candidates
/// of the walk. Returns the exit status. Each error of the walk is written to `faults` when it
/// comes.
pub fn run_walk<W, F, D, B>(
    alloc: Global,
    walk: WalkArguments<'_>,
    output: &mut Counted<W>,
    faults: &mut Counted<F>,
    directory: D,
    read: &B,
) -> u8
where
    W: Write,
    F: Write,
    D: Directory,
    B: Fn(&str) -> Result<Vec<u8>, FileFault>,
    requires { B.IsAlwaysCallable read.now }
    ensures ends { (asked : WalkRequest) → IsRead walk.entry asked → WalkEnds
        (record {
          law = D.law;
          directory = directory;
          answers = FnReturnsAt B.Fn read.now;
          reports = F.contents;
        }) asked
        (writers (stream_of W.contents output.old) (stream_of F.contents faults.old))
        (writers (stream_of W.contents output.new) (stream_of F.contents faults.new)) result }
    ensures quiet { result ≡ 0 → faults.new ≡ faults.old }
{
    let Some(glob) = built(alloc, walk.expression, faults) else {
        return FAILED;
    };
    let Some(filters) = built_filters(alloc, walk.options, read, faults) else {
        return FAILED;
    };
    let behavior = WalkBehavior::from(walk.depth);
    let Ok(entries) = glob.walk_uncaptured(alloc, directory, walk.start, behavior) else {
        say_no_memory(faults);
        return FAILED;
    };
    match write_wanted(alloc, entries, filters, output, faults) {
        Ok(false) => DONE,
        Ok(true) => HAS_ERRORS,
        Err(LinesError::Memory) => {
            say_no_memory(faults);
            FAILED
        }
        Err(error) => {
            let _ = writeln!(faults, "globs: {error}");
            FAILED
        }
    }
}
