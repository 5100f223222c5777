//! What the program does with its arguments and its streams.
ghost use Rattle.std.specs.{Fn.FnReturnsAt, Prelude.{◌≡◌, ℕ, List, IfOk, IfErr, IfSome, IfNone, IsErrOf}};
ghost use Rattle.wax_lines.specs.Lines.{Filtered, Stopped};
ghost use Rattle.wax_command_line.specs.Commands.{Asks, AsksMatch, AsksCaptures, AsksQuery, AsksWalk};
ghost use Rattle.wax_command_line.specs.Commands.{HasNoCommand, WalkRequest};
ghost use Rattle.wax_commands.specs.{LineCommands.{LinesEnd, captures_of, match_command}, Queried.QueryEnds};
ghost use Rattle.wax_commands.specs.Streams.{HasFailedRead, HasFailedWrite, stream_of, writers};
ghost use Rattle.wax_commands.specs.{Walked.WalkEnds, inner.Outputs.{command_of, writes_of}};

use crate::building::built;
use crate::faults::say_no_memory;
use crate::files::FileFault;
use crate::query::query_lines;
use crate::status::{DONE, FAILED, WRONG_WORDS};
use crate::walking::run_walk;
use std::alloc::Global;
use std::io::{Read, Write};
use wax::walk::Directory;
use wax::{Counted, Glob, capture_lines, filter_lines};
use wax_command_line::read_walk;
use wax_lines::{LinesError, write_whole};

const USAGE: &str = "\
usage: globs match EXPR
       globs captures EXPR
       globs query EXPR
       globs walk START EXPR [not EXPR].. [min N] [max N] [ignore FILE]
";

/// What is written for a line that matches: the line, or the line with its captures.
#[derive(Clone, Copy)]
enum Lines {
    Matching,
    Captured,
}

/// Runs the command that the arguments ask for, and returns the exit status: 0 without errors; 1 if
/// a build failed, a line isn't UTF-8, a read or write failed, or memory ran out outside of a walk;
/// 2 for wrong arguments; 3 if some item of a walk was an error. An argument is `None` if it isn't
/// UTF-8.
///
/// `match EXPR` writes the lines of the input that the expression matches, and `captures EXPR`
/// writes these with their captures, a tab before each. `query EXPR` writes what is known of the
/// expression. `walk START EXPR` writes the candidates of the entries below a start that the
/// expression matches, without those that the expressions after `not` match, those that the ignore
/// list in the file after `ignore` ignores, and those of depths below `min` or above `max`. The
/// last two commands don't read the input.
///
/// `read` returns the bytes of a file by its name. It is called only for the ignore list, before
/// anything is listed. Each error is written to `faults` as one line, that of a walk's item when it
/// comes; for wrong arguments it is the usage, and nothing else is written there. If that write
/// fails, the status is still as above, and `faults` counts the failure.
pub fn run_globs<R, W, F, D, B>(
    alloc: Global,
    words: &[Option<String>],
    input: &mut Counted<R>,
    output: &mut Counted<W>,
    faults: &mut Counted<F>,
    directory: D,
    read: B,
) -> u8
where
    R: Read,
    W: Write,
    F: Write,
    D: Directory,
    B: Fn(&str) -> Result<Vec<u8>, FileFault>,
    requires { B.IsAlwaysCallable read }
    ensures wrong_words { HasNoCommand words.now
        → (result ≡ 2) × (input.new ≡ input.old) × (output.new ≡ output.old) }
    ensures matches { (e : List ℕ) → AsksMatch words.now e → LinesEnd (match_command e)
        (stream_of R.remaining input.old) (stream_of R.remaining input.new)
        (writers (stream_of W.contents output.old) (stream_of F.contents faults.old))
        (writers (stream_of W.contents output.new) (stream_of F.contents faults.new)) result }
    ensures captures { (e : List ℕ) → AsksCaptures words.now e → LinesEnd (captures_of e)
        (stream_of R.remaining input.old) (stream_of R.remaining input.new)
        (writers (stream_of W.contents output.old) (stream_of F.contents faults.old))
        (writers (stream_of W.contents output.new) (stream_of F.contents faults.new)) result }
    ensures query { (e : List ℕ) → AsksQuery words.now e → QueryEnds e
        (writers (stream_of W.contents output.old) (stream_of F.contents faults.old))
        (writers (stream_of W.contents output.new) (stream_of F.contents faults.new)) result }
    ensures query_reads { (e : List ℕ) → AsksQuery words.now e → input.new ≡ input.old }
    ensures walk { (asked : WalkRequest) → AsksWalk words.now asked → WalkEnds
        (record {
          law = D.law;
          directory = directory;
          answers = FnReturnsAt B.Fn read;
          reports = F.contents;
        }) asked
        (writers (stream_of W.contents output.old) (stream_of F.contents faults.old))
        (writers (stream_of W.contents output.new) (stream_of F.contents faults.new)) result }
    ensures walk_reads { (asked : WalkRequest) → AsksWalk words.now asked → input.new ≡ input.old }
    ensures quiet { result ≡ 0 → faults.new ≡ faults.old }
{
    if let Some(expression) = expression_after("match", words) {
        return run_lines(alloc, Lines::Matching, expression, input, output, faults);
    }
    if let Some(expression) = expression_after("captures", words) {
        return run_lines(alloc, Lines::Captured, expression, input, output, faults);
    }
    if let Some(expression) = expression_after("query", words) {
        return run_query(alloc, expression, output, faults);
    }
    if let Some(walk) = read_walk(words) {
        return run_walk(alloc, walk, output, faults, directory, &read);
    }
    let _ = faults.write_all(USAGE.as_bytes());
    WRONG_WORDS
}

// Returns the expression if the arguments are only the name of a command and one expression.
fn expression_after<'w>(name: &str, words: &'w [Option<String>]) -> Option<&'w str>
    ensures some { IfSome result (λ e. Asks name.now words.now e.now) }
    ensures none { IfNone result ((e : List ℕ) → Asks name.now words.now e → ⊥) }
{
    if let [Some(command), Some(expression)] = words {
        if command.as_str() == name {
            return Some(expression.as_str());
        }
    }
    None
}

// Runs `match` or `captures`.
fn run_lines<R: Read, W: Write, F: Write>(
    alloc: Global,
    lines: Lines,
    expression: &str,
    input: &mut Counted<R>,
    output: &mut Counted<W>,
    faults: &mut Counted<F>,
) -> u8
    ensures ends { LinesEnd (command_of lines expression.now)
        (stream_of R.remaining input.old) (stream_of R.remaining input.new)
        (writers (stream_of W.contents output.old) (stream_of F.contents faults.old))
        (writers (stream_of W.contents output.new) (stream_of F.contents faults.new)) result }
    ensures quiet { result ≡ 0 → faults.new ≡ faults.old }
{
    let Some(glob) = built(alloc, expression, faults) else {
        return FAILED;
    };
    match write_lines(alloc, lines, &glob, input, output) {
        Ok(0) => DONE,
        Ok(count) => {
            let _ = writeln!(faults, "globs: {count} lines are not text");
            FAILED
        }
        Err(LinesError::Memory) => {
            say_no_memory(faults);
            FAILED
        }
        Err(error) => {
            let _ = writeln!(faults, "globs: {error}");
            FAILED
        }
    }
}

fn write_lines<R: Read, W: Write>(
    alloc: Global,
    lines: Lines,
    glob: &Glob<'_>,
    input: &mut Counted<R>,
    output: &mut Counted<W>,
) -> Result<u64, LinesError>
    ensures done { IfOk result (Filtered (writes_of lines glob.now)
        (R.remaining input.old.inner) (R.remaining input.new.inner)
        (W.contents output.old.inner) (W.contents output.new.inner)) }
    ensures stopped { IfErr result (Stopped (writes_of lines glob.now)
        (R.remaining input.old.inner) (R.remaining input.new.inner)
        (W.contents output.old.inner) (W.contents output.new.inner)) }
    ensures read_failed { IsErrOf result LinesError.Read
        → HasFailedRead (stream_of R.remaining input.old) (stream_of R.remaining input.new) }
    ensures write_failed { IsErrOf result LinesError.Write
        → HasFailedWrite (stream_of W.contents output.old) (stream_of W.contents output.new) }
{
    match lines {
        Lines::Matching => filter_lines(alloc, input, output, glob),
        Lines::Captured => capture_lines(alloc, input, output, glob),
    }
}

fn run_query<W: Write, F: Write>(
    alloc: Global,
    expression: &str,
    output: &mut Counted<W>,
    faults: &mut Counted<F>,
) -> u8
    ensures ends { QueryEnds expression.now
        (writers (stream_of W.contents output.old) (stream_of F.contents faults.old))
        (writers (stream_of W.contents output.new) (stream_of F.contents faults.new)) result }
    ensures quiet { result ≡ 0 → faults.new ≡ faults.old }
{
    let Some(glob) = built(alloc, expression, faults) else {
        return FAILED;
    };
    let Ok(lines) = query_lines(alloc, glob) else {
        say_no_memory(faults);
        return FAILED;
    };
    match write_whole(output, lines.as_bytes()) {
        Ok(()) => DONE,
        Err(error) => {
            let _ = writeln!(faults, "globs: {error}");
            FAILED
        }
    }
}
