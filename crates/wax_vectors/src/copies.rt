//! Copies of globs and of what they match.

use crate::globs::{add_is_match, add_texts};
use std::alloc::Global;
use wax::{CandidatePath, Glob, MatchedText, NoMemory, Program};
use wax_test_kit::answer::Answer;

/// Adds the texts of a match: those of a clone, those of an owned copy, and its own once it owns
/// them.
///
/// # Errors
///
/// Returns `NoMemory` if allocation fails or the glob doesn't match the path.
pub fn add_matches(
    alloc: Global,
    glob: &Glob<'_>,
    path: &str,
    made: &mut Answer,
) -> Result<(), NoMemory> {
    let path = CandidatePath::from(path);
    match glob.matched(alloc, &path)? {
        Some(matched) => add_copies(alloc, matched, made),
        None => Err(NoMemory),
    }
}

fn add_copies(alloc: Global, matched: MatchedText<'_>, made: &mut Answer) -> Result<(), NoMemory> {
    if add_borrowed(alloc, &matched, made).is_err() {
        return Err(NoMemory);
    }
    match matched.into_owned(alloc) {
        Ok(owned) => {
            add_clone(&owned, made);
            Ok(())
        }
        Err(_) => Err(NoMemory),
    }
}

fn add_borrowed(
    alloc: Global,
    matched: &MatchedText<'_>,
    made: &mut Answer,
) -> Result<(), NoMemory> {
    add_clone(&matched.clone()?, made);
    add_clone(&matched.to_owned(alloc)?, made);
    Ok(())
}

/// Adds the whole text, and the captured texts by their numbers.
fn add_clone(matched: &MatchedText<'_>, made: &mut Answer) {
    made.add(matched.complete());
    add_texts(matched, "|", made);
    made.add(";");
}

/// Adds whether a copy of the glob matches the path, its expression and its `Debug` form.
pub fn add_globs(
    alloc: Global,
    glob: &Glob<'_>,
    path: &str,
    made: &mut Answer,
) -> Result<(), NoMemory> {
    match glob.to_owned(alloc) {
        Ok(copy) => add_glob(alloc, &copy, path, made),
        Err(error) => Err(error),
    }
}

fn add_glob(alloc: Global, copy: &Glob<'_>, path: &str, made: &mut Answer) -> Result<(), NoMemory> {
    add_is_match(alloc, copy, path, made)?;
    made.tab();
    made.add(copy.expression());
    made.tab();
    made.debug(copy);
    Ok(())
}
