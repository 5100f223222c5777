//! Facts of sets of patterns. Patterns have spaces between them, and sets have semicolons.

use crate::comparisons;
use crate::globs::{add_answers, add_facts, add_is_match, add_match, add_verdicts, add_visited};
use crate::kinds::SetFact;
use std::alloc::{AllocError, Global};
use wax::encode::{Meter, compile};
use wax::rule::Checked;
use wax::token::{ExpressionMetadata, Sides, Token};
use wax::{Any, BuildError, CandidatePath, Glob, NoMemory, Pattern, any};
use wax_test_kit::answer::Answer;
use wax_test_kit::rows::{DataRow, push};

type Set = Any<'static>;

type Part = Checked<Token<'static, ExpressionMetadata>>;

/// Adds a fact of a set.
///
/// # Errors
///
/// Returns `NoMemory` if allocation fails, or if the program of the set is too long.
pub fn answer(
    alloc: Global,
    fact: SetFact,
    row: &DataRow,
    made: &mut Answer,
) -> Result<(), NoMemory> {
    match built(alloc, fact, row.input(0)) {
        Ok(set) => match fact {
            SetFact::Length | SetFact::EmptyLength => add_length(alloc, set, made),
            _ => of_set(alloc, fact, row, &set, made),
        },
        Err(error) => add_error(&error, made),
    }
}

fn built(alloc: Global, fact: SetFact, patterns: &str) -> Result<Set, BuildError> {
    match fact {
        SetFact::Sets | SetFact::SetsIsMatch => set_of_sets(alloc, patterns),
        SetFact::Globs => set_of_globs(alloc, patterns),
        SetFact::Length => set_of_parts(alloc, patterns),
        SetFact::Empty | SetFact::EmptyLength => set_of_none(alloc),
        SetFact::Patterns
        | SetFact::Match
        | SetFact::IsMatch
        | SetFact::Matcher
        | SetFact::GoesOn
        | SetFact::Matches
        | SetFact::Verdicts
        | SetFact::Metered
        | SetFact::MeteredGoesOn
        | SetFact::Conflicts
        | SetFact::Facts => set_of(alloc, patterns),
    }
}

/// Adds the number of an error.
pub fn add_error(error: &BuildError, made: &mut Answer) -> Result<(), NoMemory> {
    if let BuildError::Memory = error {
        return Err(NoMemory);
    }
    made.show(&error.number());
    Ok(())
}

fn of_set(
    alloc: Global,
    fact: SetFact,
    row: &DataRow,
    set: &Set,
    made: &mut Answer,
) -> Result<(), NoMemory> {
    match fact {
        SetFact::Match => add_match(alloc, set, row.input(1), made),
        SetFact::IsMatch | SetFact::SetsIsMatch => add_is_match(alloc, set, row.input(1), made),
        SetFact::Matcher => add_answers(alloc, set, row.input(1), made),
        SetFact::GoesOn => add_goes_on(alloc, set, row.input(1), made),
        SetFact::Matches => add_matches(alloc, set, row.input(1), made),
        SetFact::Verdicts => add_verdicts(alloc, set, row.input(1), made),
        SetFact::Metered => {
            let mut meter = Meter::new();
            let path = CandidatePath::from(row.input(1));
            let is_match = set.is_match_metered(alloc, &path, &mut meter)?;
            add_visited(is_match, meter.ticks(), row.input(2), made);
            Ok(())
        }
        SetFact::MeteredGoesOn => add_metered_goes_on(alloc, set, row, made),
        SetFact::Conflicts => comparisons::add_conflicts(alloc, set, row, made),
        SetFact::Empty => add_is_match(alloc, set, row.input(0), made),
        SetFact::Facts => {
            made.debug(set);
            made.tab();
            add_facts(alloc, set, made)
        }
        _ => {
            made.add("0");
            Ok(())
        }
    }
}

/// Adds below which of the paths something can match, by the set and by one matcher.
fn add_goes_on(alloc: Global, set: &Set, paths: &str, made: &mut Answer) -> Result<(), NoMemory> {
    for path in paths.split(' ') {
        made.digit(set.goes_on(alloc, &CandidatePath::from(path))?);
    }
    made.tab();
    let mut matcher = set.matcher(alloc)?;
    for path in paths.split(' ') {
        made.digit(matcher.goes_on(&CandidatePath::from(path))?);
    }
    Ok(())
}

fn add_metered_goes_on(
    alloc: Global,
    set: &Set,
    row: &DataRow,
    made: &mut Answer,
) -> Result<(), NoMemory> {
    let mut meter = Meter::new();
    let path = CandidatePath::from(row.input(1));
    let goes_on = set.goes_on_metered(alloc, &path, &mut meter)?;
    add_visited(goes_on, meter.ticks(), row.input(2), made);
    Ok(())
}

/// Adds which of the patterns match each of the paths, by the set and by one matcher.
fn add_matches(alloc: Global, set: &Set, paths: &str, made: &mut Answer) -> Result<(), NoMemory> {
    for path in paths.split(' ') {
        add_indexes(&set.matches(alloc, &CandidatePath::from(path))?, made);
    }
    made.tab();
    let mut matcher = set.matcher(alloc)?;
    let mut indexes = Vec::new(alloc);
    for path in paths.split(' ') {
        matcher.matches_into(&CandidatePath::from(path), &mut indexes)?;
        add_indexes(&indexes, made);
    }
    Ok(())
}

/// Adds the indexes in brackets, with commas between.
fn add_indexes(indexes: &[usize], made: &mut Answer) {
    made.debug(&indexes);
}

/// Builds a set of expressions.
///
/// # Errors
///
/// Returns the first error of an expression, or `BuildError::Memory` if allocation fails.
pub fn set_of(alloc: Global, patterns: &str) -> Result<Set, BuildError> {
    match words(alloc, patterns) {
        Ok(words) => any(alloc, words),
        Err(_) => Err(BuildError::Memory),
    }
}

fn words(alloc: Global, patterns: &str) -> Result<Vec<&str>, AllocError> {
    patterns.split(' ').collect(alloc)
}

fn set_of_none(alloc: Global) -> Result<Set, BuildError> {
    let none: Vec<&str> = Vec::new(alloc);
    any(alloc, none)
}

/// Builds a set of globs.
fn set_of_globs(alloc: Global, patterns: &str) -> Result<Set, BuildError> {
    let mut all: Vec<Glob<'static>> = Vec::new(alloc);
    for pattern in patterns.split(' ') {
        push_glob(alloc, &mut all, pattern)?;
    }
    any(alloc, all)
}

/// Builds the glob of a pattern, which owns its texts, and appends it.
fn push_glob(
    alloc: Global,
    globs: &mut Vec<Glob<'static>>,
    pattern: &str,
) -> Result<(), BuildError> {
    let glob = match Glob::new(alloc, pattern) {
        Ok(glob) => glob.into_owned(alloc),
        Err(error) => return Err(error),
    };
    match glob {
        Ok(glob) => Ok(push(globs, glob)?),
        Err(_) => Err(BuildError::Memory),
    }
}

/// Builds a set of sets.
fn set_of_sets(alloc: Global, sets: &str) -> Result<Set, BuildError> {
    let mut all: Vec<Set> = Vec::new(alloc);
    for patterns in sets.split(';') {
        push(&mut all, set_of(alloc, patterns)?)?;
    }
    any(alloc, all)
}

/// Builds a set of the checked tokens of a set, if a semicolon is after it, and of those of each
/// pattern that isn't in it.
fn set_of_parts(alloc: Global, patterns: &str) -> Result<Set, BuildError> {
    let mut parts: Vec<Part> = Vec::new(alloc);
    let mut patterns = patterns;
    if let Some((set, others)) = patterns.split_once(';') {
        push_part(&mut parts, checked_set(alloc, set))?;
        patterns = others;
    }
    for pattern in patterns.split(' ') {
        push_part(&mut parts, pattern.into_checked(alloc))?;
    }
    any(alloc, parts)
}

fn push_part(parts: &mut Vec<Part>, part: Result<Part, BuildError>) -> Result<(), BuildError> {
    match part {
        Ok(part) => Ok(push(parts, part)?),
        Err(error) => Err(error),
    }
}

fn checked_set(alloc: Global, patterns: &str) -> Result<Part, BuildError> {
    match set_of(alloc, patterns) {
        Ok(set) => set.into_checked(alloc),
        Err(error) => Err(error),
    }
}

/// Adds the length of the program of the set's token.
fn add_length(alloc: Global, set: Set, made: &mut Answer) -> Result<(), NoMemory> {
    match set.into_checked(alloc) {
        Ok(checked) => add_program(alloc, checked.as_ref(), made),
        Err(_) => Err(NoMemory),
    }
}

fn add_program(
    alloc: Global,
    token: &Token<'_, ExpressionMetadata>,
    made: &mut Answer,
) -> Result<(), NoMemory> {
    match compile(alloc, token.concatenation(), Sides::NONE) {
        Ok(program) => {
            made.show(&program.len());
            Ok(())
        }
        Err(_) => Err(NoMemory),
    }
}
