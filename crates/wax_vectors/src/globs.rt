//! Facts of globs, and of the paths that they match.

use crate::kinds::GlobFact;
use crate::{copies, lines, memoryless, parts, refusals};
use std::alloc::Global;
use wax::diagnostics::{LocatedError, Warning};
use wax::encode::Meter;
use wax::{BuildMatcher, CandidatePath, Glob, MatchedText, NoMemory, PathMatcher, Program};
use wax_test_kit::answer::Answer;
use wax_test_kit::rows::DataRow;

/// Adds a fact of the expression's glob, or of the error why it can't be built.
///
/// # Errors
///
/// Returns `NoMemory` if allocation fails, and for some facts of a match if the glob doesn't match.
pub fn answer(
    alloc: Global,
    fact: GlobFact,
    row: &DataRow,
    made: &mut Answer,
) -> Result<(), NoMemory> {
    match Glob::new(alloc, row.input(0)) {
        Ok(glob) => match fact {
            GlobFact::Part(fact) => parts::answer(alloc, fact, row, glob, made),
            _ => of_glob(alloc, fact, row, &glob, made),
        },
        Err(error) => refusals::answer(alloc, fact, row, &error, made),
    }
}

fn of_glob(
    alloc: Global,
    fact: GlobFact,
    row: &DataRow,
    glob: &Glob<'_>,
    made: &mut Answer,
) -> Result<(), NoMemory> {
    match fact {
        GlobFact::Match => add_match(alloc, glob, row.input(1), made),
        GlobFact::IsMatch => add_is_match(alloc, glob, row.input(1), made),
        GlobFact::Matcher => add_answers(alloc, glob, row.input(1), made),
        GlobFact::Visits => add_visits(alloc, glob, row, made),
        GlobFact::Metered => add_metered(alloc, glob, row, made),
        GlobFact::MeteredGoesOn => add_metered_goes_on(alloc, glob, row, made),
        GlobFact::MeteredMatcher => add_metered_matcher(alloc, glob, row, made),
        GlobFact::GoesOn => add_goes_on(alloc, glob, row.input(1), made),
        GlobFact::Verdicts => add_verdicts(alloc, glob, row.input(1), made),
        GlobFact::Captures => add_captures(alloc, glob, made),
        GlobFact::Semantic => add_semantic(alloc, glob, made),
        GlobFact::Warnings => add_warnings(alloc, glob, made),
        GlobFact::Path => add_path(alloc, glob, made),
        GlobFact::Text => add_text(alloc, glob, made),
        GlobFact::Facts => add_facts(alloc, glob, made),
        GlobFact::MatchCopies => copies::add_matches(alloc, glob, row.input(1), made),
        GlobFact::Copies => copies::add_globs(alloc, glob, row.input(1), made),
        GlobFact::Lines(call) => lines::add_lines(alloc, call, glob, row, made),
        GlobFact::Memoryless(extent) => memoryless::add_facts(alloc, extent, glob, row, made),
        _ => {
            add_built(alloc, fact, row, glob, made);
            Ok(())
        }
    }
}

/// Adds what doesn't allocate, or the outcomes of two calls of which each may fail to.
fn add_built(alloc: Global, fact: GlobFact, row: &DataRow, glob: &Glob<'_>, made: &mut Answer) {
    match fact {
        GlobFact::IsMatchTwice => add_is_match_twice(alloc, glob, row.input(1), made),
        GlobFact::MatchTwice => add_match_twice(alloc, glob, row.input(1), made),
        GlobFact::Accept => made.add("0\t-\t-"),
        GlobFact::Location | GlobFact::Error | GlobFact::Picture => made.add("no error"),
        GlobFact::Printed => add_printed(glob, made),
        _ => made.add("0"),
    }
}

fn add_printed(glob: &Glob<'_>, made: &mut Answer) {
    made.show(glob);
    made.tab();
    made.debug(glob);
}

/// Adds whether the program matches the path.
pub fn add_is_match<P: Program>(
    alloc: Global,
    program: &P,
    path: &str,
    made: &mut Answer,
) -> Result<(), NoMemory> {
    made.digit(program.is_match(alloc, &CandidatePath::from(path))?);
    Ok(())
}

/// Adds which of the paths one matcher of the glob or the set matches. The paths have spaces
/// between them.
pub fn add_answers<'p, P: BuildMatcher<'p>>(
    alloc: Global,
    program: &'p P,
    paths: &str,
    made: &mut Answer,
) -> Result<(), NoMemory> {
    let mut matcher = program.build_matcher(alloc)?;
    for path in paths.split(' ') {
        made.digit(matcher.is_match(&CandidatePath::from(path))?);
    }
    Ok(())
}

/// Adds for each of the paths whether one matcher of the glob or the set matches it, and whether
/// something below it can match. The paths have spaces between them.
pub fn add_verdicts<'p, P: BuildMatcher<'p>>(
    alloc: Global,
    program: &'p P,
    paths: &str,
    made: &mut Answer,
) -> Result<(), NoMemory> {
    let mut matcher = program.build_matcher(alloc)?;
    for path in paths.split(' ') {
        let verdict = matcher.verdict(&CandidatePath::from(path))?;
        made.digit(verdict.is_match);
        made.digit(verdict.goes_on);
    }
    Ok(())
}

/// Adds below which of the paths something can match, by the glob and by one matcher.
fn add_goes_on(
    alloc: Global,
    glob: &Glob<'_>,
    paths: &str,
    made: &mut Answer,
) -> Result<(), NoMemory> {
    for path in paths.split(' ') {
        made.digit(glob.goes_on(alloc, &CandidatePath::from(path))?);
    }
    made.tab();
    let mut matcher = glob.matcher(alloc)?;
    for path in paths.split(' ') {
        made.digit(matcher.goes_on(&CandidatePath::from(path))?);
    }
    Ok(())
}

/// Adds 1 with the whole text and its captures if the program matches the path, and otherwise 0.
pub fn add_match<P: Program>(
    alloc: Global,
    program: &P,
    path: &str,
    made: &mut Answer,
) -> Result<(), NoMemory> {
    let path = CandidatePath::from(path);
    match program.matched(alloc, &path) {
        Ok(Some(matched)) => {
            made.add("1");
            add_texts(&matched, "\t", made);
            Ok(())
        }
        Ok(None) => {
            made.add("0");
            Ok(())
        }
        Err(error) => Err(error),
    }
}

/// Adds twice whether the glob matches the path.
fn add_is_match_twice(alloc: Global, glob: &Glob<'_>, path: &str, made: &mut Answer) {
    for _ in 0..2 {
        let call = add_is_match(alloc, glob, path, made);
        made.end(call);
    }
}

/// Adds twice what the glob captures of the path.
fn add_match_twice(alloc: Global, glob: &Glob<'_>, path: &str, made: &mut Answer) {
    for _ in 0..2 {
        let call = add_match(alloc, glob, path, made);
        made.end(call);
    }
}

/// Adds the whole text and its captures, each after the separator.
pub fn add_texts(matched: &MatchedText<'_>, separator: &str, made: &mut Answer) {
    for index in 0..usize::MAX {
        let Some(text) = matched.get(index) else {
            break;
        };
        made.add(separator);
        made.add(text);
    }
}

fn add_visits(
    alloc: Global,
    glob: &Glob<'_>,
    row: &DataRow,
    made: &mut Answer,
) -> Result<(), NoMemory> {
    let path = CandidatePath::from(row.input(1));
    let (is_match, visits) = glob.is_match_counted(alloc, &path)?;
    add_visited(is_match, visits, row.input(2), made);
    Ok(())
}

fn add_metered(
    alloc: Global,
    glob: &Glob<'_>,
    row: &DataRow,
    made: &mut Answer,
) -> Result<(), NoMemory> {
    let mut meter = Meter::new();
    let path = CandidatePath::from(row.input(1));
    let is_match = glob.is_match_metered(alloc, &path, &mut meter)?;
    add_visited(is_match, meter.ticks(), row.input(2), made);
    Ok(())
}

fn add_metered_goes_on(
    alloc: Global,
    glob: &Glob<'_>,
    row: &DataRow,
    made: &mut Answer,
) -> Result<(), NoMemory> {
    let mut meter = Meter::new();
    let path = CandidatePath::from(row.input(1));
    let goes_on = glob.goes_on_metered(alloc, &path, &mut meter)?;
    add_visited(goes_on, meter.ticks(), row.input(2), made);
    Ok(())
}

/// Adds what a matcher says of a path, and then of the same path again: whether the path matches, by
/// `is_match` and by `verdict`, and whether the visits are within bounds.
fn add_metered_matcher(
    alloc: Global,
    glob: &Glob<'_>,
    row: &DataRow,
    made: &mut Answer,
) -> Result<(), NoMemory> {
    let mut matcher = glob.matcher(alloc)?;
    let path = CandidatePath::from(row.input(1));
    for bounds in [row.input(2), "0..0"] {
        let mut meter = Meter::new();
        let is_match = matcher.is_match_metered(&path, &mut meter)?;
        add_moved(is_match, &meter, bounds, made);
    }
    for bounds in [row.input(3), "0..0"] {
        let mut meter = Meter::new();
        let verdict = matcher.verdict_metered(&path, &mut meter)?;
        add_moved(verdict.is_match, &meter, bounds, made);
    }
    Ok(())
}

/// Adds what was decided about a path, and whether the meter moved within bounds.
pub fn add_moved(answer: bool, meter: &Meter, bounds: &str, made: &mut Answer) {
    made.digit(answer);
    made.add(" ");
    made.within(meter.ticks(), bounds);
    made.add(";");
}

/// Adds what was decided about a path, and whether the number of visits is within bounds.
pub fn add_visited(answer: bool, visits: u128, bounds: &str, made: &mut Answer) {
    made.digit(answer);
    made.tab();
    made.within(visits, bounds);
}

/// Adds the number, the start and the length of each capturing token.
fn add_captures(alloc: Global, glob: &Glob<'_>, made: &mut Answer) -> Result<(), NoMemory> {
    for token in glob.captures(alloc)? {
        made.show(&token.index());
        made.add(" ");
        made.span(token.span());
        made.add(";");
    }
    Ok(())
}

fn add_semantic(alloc: Global, glob: &Glob<'_>, made: &mut Answer) -> Result<(), NoMemory> {
    made.digit(glob.has_semantic_literals(alloc)?);
    Ok(())
}

/// Adds each warning with its start and length.
fn add_warnings(alloc: Global, glob: &Glob<'_>, made: &mut Answer) -> Result<(), NoMemory> {
    for warning in &glob.diagnose(alloc)? {
        made.add(match warning {
            Warning::SemanticLiteral(_) => "semantic literal ",
            Warning::TerminatingSeparator(_) => "terminating separator ",
        });
        made.span(warning.span());
        made.add(";");
    }
    Ok(())
}

/// Adds the only path that the glob matches.
fn add_path(alloc: Global, glob: &Glob<'_>, made: &mut Answer) -> Result<(), NoMemory> {
    match glob.text(alloc)?.into_path_buf(alloc)? {
        Some(path) => {
            made.add("only ");
            made.add(path.as_str());
        }
        None => made.add("varies"),
    }
    Ok(())
}

/// Adds the only text that the program matches.
fn add_text<P: Program>(alloc: Global, program: &P, made: &mut Answer) -> Result<(), NoMemory> {
    match program.text(alloc)?.as_path() {
        Some(text) => {
            made.add("invariant ");
            made.add(text);
        }
        None => made.add("variant"),
    }
    Ok(())
}

/// Adds the depth, the only text, the root and the exhaustiveness.
pub fn add_facts<P: Program>(
    alloc: Global,
    program: &P,
    made: &mut Answer,
) -> Result<(), NoMemory> {
    made.depth(program.depth());
    made.tab();
    add_text(alloc, program, made)?;
    made.tab();
    made.when(program.has_root());
    made.tab();
    made.when(program.is_exhaustive());
    Ok(())
}
