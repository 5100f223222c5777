//! Facts of globs that are partitioned or owned.

use crate::globs::{add_is_match, add_moved};
use crate::kinds::{GlobFact, PartFact};
use crate::refusals;
use std::alloc::Global;
use wax::encode::Meter;
use wax::{CandidatePath, Glob, NoMemory};
use wax_test_kit::answer::Answer;
use wax_test_kit::rows::DataRow;

/// Adds a fact of a glob that is partitioned or owned.
pub fn answer(
    alloc: Global,
    fact: PartFact,
    row: &DataRow,
    glob: Glob<'_>,
    made: &mut Answer,
) -> Result<(), NoMemory> {
    match fact {
        PartFact::Partition | PartFact::Prefix => add_partition(alloc, fact, glob, made),
        PartFact::Owned => add_owned(alloc, row, glob, made),
        PartFact::MeteredOwned => add_metered_owned(alloc, row, glob, made),
        _ => match parts_of(alloc, fact, glob) {
            Ok((prefix, rest)) => add_parts(alloc, fact, row, prefix.as_str(), &rest, made),
            Err(error) => Err(error),
        },
    }
}

/// Adds the prefix, and then, unless only that is shown, the rest or that there is none.
fn add_partition(
    alloc: Global,
    fact: PartFact,
    glob: Glob<'_>,
    made: &mut Answer,
) -> Result<(), NoMemory> {
    let Ok((prefix, rest)) = glob.partition(alloc) else {
        return Err(NoMemory);
    };
    made.add(prefix.as_str());
    match (fact, &rest) {
        (PartFact::Prefix, _) => {}
        (_, Some(rest)) => {
            made.add("\trest ");
            made.show(rest);
        }
        (_, None) => made.add("\tno rest"),
    }
    Ok(())
}

/// Returns the prefix and the rest of the glob, or for `Again` those of its rest.
fn parts_of<'t>(
    alloc: Global,
    fact: PartFact,
    glob: Glob<'t>,
) -> Result<(String, Glob<'t>), NoMemory> {
    match fact {
        PartFact::RestOrTree => glob.partition_or_tree(alloc),
        PartFact::Again => match glob.partition_or_empty(alloc) {
            Ok((_, rest)) => rest.partition_or_empty(alloc),
            Err(error) => Err(error),
        },
        _ => glob.partition_or_empty(alloc),
    }
}

/// Adds the prefix and the rest, or for `Rest` whether the rest matches the path.
fn add_parts(
    alloc: Global,
    fact: PartFact,
    row: &DataRow,
    prefix: &str,
    rest: &Glob<'_>,
    made: &mut Answer,
) -> Result<(), NoMemory> {
    if let PartFact::Rest = fact {
        return add_is_match(alloc, rest, row.input(1), made);
    }
    made.add(prefix);
    made.tab();
    made.show(rest);
    Ok(())
}

/// Adds whether the glob matches the path once it owns its texts, and its expression.
fn add_owned(
    alloc: Global,
    row: &DataRow,
    glob: Glob<'_>,
    made: &mut Answer,
) -> Result<(), NoMemory> {
    match glob.into_owned(alloc) {
        Ok(owned) => {
            let added = add_is_match(alloc, &owned, row.input(1), made);
            made.tab();
            made.add(owned.expression());
            added
        }
        Err(error) => Err(error),
    }
}

/// Builds a glob with its warnings. Adds what it prints, and how many warnings there are.
pub fn add_diagnosed(alloc: Global, row: &DataRow, made: &mut Answer) -> Result<(), NoMemory> {
    match Glob::diagnosed(alloc, row.input(0)) {
        Ok((glob, warnings)) => {
            made.show(&glob);
            made.tab();
            made.show(&warnings.len());
            Ok(())
        }
        Err(error) => refusals::answer(alloc, GlobFact::Printed, row, &error, made),
    }
}

/// Adds whether a glob that no expression was given for is empty, and whether it matches the path.
pub fn add_plain(
    alloc: Global,
    glob: Result<Glob<'_>, NoMemory>,
    path: &str,
    made: &mut Answer,
) -> Result<(), NoMemory> {
    let Ok(glob) = glob else {
        return Err(NoMemory);
    };
    made.digit(glob.is_empty());
    made.tab();
    add_is_match(alloc, &glob, path, made)
}

/// Adds what a matcher that owns the glob says of a path, and then of the same path again: whether the
/// path matches, by `is_match` and by `verdict`, and whether the visits are within bounds.
fn add_metered_owned(
    alloc: Global,
    row: &DataRow,
    glob: Glob<'_>,
    made: &mut Answer,
) -> Result<(), NoMemory> {
    let mut matcher = glob.into_matcher(alloc);
    let path = CandidatePath::from(row.input(1));
    for bounds in [row.input(2), "0..0"] {
        let mut meter = Meter::new();
        let is_match = matcher.is_match_metered(&path, &mut meter)?;
        add_moved(is_match, &meter, bounds, made);
    }
    for bounds in [row.input(3), "0..0"] {
        let mut meter = Meter::new();
        let verdict = matcher.verdict_metered(&path, &mut meter)?;
        add_moved(verdict.is_match, &meter, bounds, made);
    }
    Ok(())
}
