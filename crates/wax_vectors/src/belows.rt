//! Folders below which patterns and ignore lists exclude everything.

use crate::globs::add_moved;
use std::alloc::Global;
use wax::encode::Meter;
use wax::walk::{Exclusion, IgnoreError, IgnoreList, WalkFilter, exclusion_of};
use wax::{BuildError, CandidatePath, NoMemory};
use wax_test_kit::answer::Answer;
use wax_test_kit::rows::DataRow;

/// Adds below which of the paths the pattern excludes everything: by its exclusion, and by the filter
/// of that. For a pattern that isn't built, adds the number of the error.
pub fn add_excluded(
    alloc: Global,
    pattern: &str,
    paths: &str,
    made: &mut Answer,
) -> Result<(), NoMemory> {
    let Some(exclusion) = built_exclusion(alloc, pattern, made)? else {
        return Ok(());
    };
    for path in paths.split(' ') {
        made.digit(exclusion.excludes_below(alloc, &CandidatePath::from(path))?);
    }
    add_by_filter(alloc, &WalkFilter::Not(exclusion), paths, made)
}

/// Adds whether the pattern excludes everything below the path, by its exclusion and by the filter of
/// that, and whether the visits of each are within bounds.
pub fn add_excluded_metered(
    alloc: Global,
    row: &DataRow,
    made: &mut Answer,
) -> Result<(), NoMemory> {
    let Some(exclusion) = built_exclusion(alloc, row.input(0), made)? else {
        return Ok(());
    };
    let path = CandidatePath::from(row.input(1));
    let mut meter = Meter::new();
    let is_excluded = exclusion.excludes_below_metered(alloc, &path, &mut meter)?;
    add_moved(is_excluded, &meter, row.input(2), made);
    add_metered_by_filter(alloc, &WalkFilter::Not(exclusion), row, made)
}

/// Builds the exclusion of a pattern. Adds the number of the error if it isn't built.
fn built_exclusion(
    alloc: Global,
    pattern: &str,
    made: &mut Answer,
) -> Result<Option<Exclusion>, NoMemory> {
    match exclusion_of(alloc, pattern) {
        Ok(exclusion) => Ok(Some(exclusion)),
        Err(BuildError::Memory) => Err(NoMemory),
        Err(error) => {
            made.show(&error.number());
            Ok(None)
        }
    }
}

/// Adds below which of the paths the list ignores everything: by the list, and by the filter of it.
/// For a text that is no list, adds the number of the error.
pub fn add_ignored(
    alloc: Global,
    list: &str,
    paths: &str,
    made: &mut Answer,
) -> Result<(), NoMemory> {
    let Some(list) = parsed_list(alloc, list, made)? else {
        return Ok(());
    };
    for path in paths.split(' ') {
        made.digit(list.ignores_below(alloc, &CandidatePath::from(path))?);
    }
    add_by_filter(alloc, &WalkFilter::ignore(list), paths, made)
}

/// Adds whether the list ignores everything below the path, by the list and by the filter of it, and
/// whether the visits of each are within bounds.
pub fn add_ignored_metered(
    alloc: Global,
    row: &DataRow,
    made: &mut Answer,
) -> Result<(), NoMemory> {
    let Some(list) = parsed_list(alloc, row.input(0), made)? else {
        return Ok(());
    };
    let path = CandidatePath::from(row.input(1));
    let mut meter = Meter::new();
    let is_ignored = list.ignores_below_metered(alloc, &path, &mut meter)?;
    add_moved(is_ignored, &meter, row.input(2), made);
    add_metered_by_filter(alloc, &WalkFilter::ignore(list), row, made)
}

/// Parses a list. Adds the number of the error if the text is no list.
fn parsed_list(
    alloc: Global,
    list: &str,
    made: &mut Answer,
) -> Result<Option<IgnoreList>, NoMemory> {
    match IgnoreList::parse(alloc, list) {
        Ok(list) => Ok(Some(list)),
        Err(IgnoreError::Memory) => Err(NoMemory),
        Err(error) => {
            made.show(&error.number());
            Ok(None)
        }
    }
}

fn add_by_filter(
    alloc: Global,
    filter: &WalkFilter,
    paths: &str,
    made: &mut Answer,
) -> Result<(), NoMemory> {
    made.tab();
    for path in paths.split(' ') {
        made.digit(filter.excludes_below(alloc, &CandidatePath::from(path))?);
    }
    Ok(())
}

fn add_metered_by_filter(
    alloc: Global,
    filter: &WalkFilter,
    row: &DataRow,
    made: &mut Answer,
) -> Result<(), NoMemory> {
    let path = CandidatePath::from(row.input(1));
    let mut meter = Meter::new();
    let is_excluded = filter.excludes_below_metered(alloc, &path, &mut meter)?;
    add_moved(is_excluded, &meter, row.input(2), made);
    Ok(())
}
