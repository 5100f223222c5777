//! Facts of errors of a build.

use crate::kinds::GlobFact;
use std::alloc::Global;
use wax::diagnostics::LocatedError;
use wax::{BuildError, NoMemory};
use wax_test_kit::answer::Answer;
use wax_test_kit::rows::DataRow;

/// Adds a fact of the error why an expression can't be built.
pub fn answer(
    alloc: Global,
    fact: GlobFact,
    row: &DataRow,
    error: &BuildError,
    made: &mut Answer,
) -> Result<(), NoMemory> {
    if let BuildError::Memory = error {
        return Err(NoMemory);
    }
    match fact {
        GlobFact::Builds => made.show(&error.number()),
        GlobFact::Accept => add_span(error, made),
        GlobFact::Labels => add_rule_labels(alloc, error, made)?,
        GlobFact::ErrorLabels => {
            made.show(&error.number());
            made.labels(&error.labels(alloc)?);
        }
        GlobFact::Location => add_location(error, made),
        GlobFact::Error => made.show(error),
        GlobFact::Picture => {
            made.show(error);
            made.add("\n");
            made.add(error.picture(alloc, row.input(0))?.as_str());
        }
        GlobFact::IsMatch
        | GlobFact::Match
        | GlobFact::Visits
        | GlobFact::Metered
        | GlobFact::GoesOn
        | GlobFact::Verdicts => made.add("?"),
        _ => made.add("not built"),
    }
    Ok(())
}

/// Adds the number of the error, and its start and length if a rule is broken.
fn add_span(error: &BuildError, made: &mut Answer) {
    made.show(&error.number());
    let BuildError::Rule(broken) = error else {
        return made.add("\t-\t-");
    };
    if let Some(place) = broken.locations().first() {
        let (start, len) = place.span();
        made.tab();
        made.show(&start);
        made.tab();
        made.show(&len);
    }
}

/// Adds the number of the error, and each label if a rule is broken.
fn add_rule_labels(alloc: Global, error: &BuildError, made: &mut Answer) -> Result<(), NoMemory> {
    made.show(&error.number());
    if let BuildError::Rule(broken) = error {
        for place in broken.locations() {
            made.labels(&place.labels(alloc)?);
        }
    }
    Ok(())
}

/// Adds what is wrong, and where.
fn add_location(error: &BuildError, made: &mut Answer) {
    let Some(location) = error.locations() else {
        return made.add("none");
    };
    let (start, len) = location.span();
    made.show(&location);
    made.add(" at ");
    made.show(&start);
    made.add(" of ");
    made.show(&len);
}
