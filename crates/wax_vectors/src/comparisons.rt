//! Two globs or sets that are compared, patterns of a set that match one path, and the lines of ignore
//! lists that decide nothing.

use crate::kinds::Question;
use crate::{lists, sets};
use std::alloc::Global;
use wax::walk::{IdleReason, IgnoreList};
use wax::{Any, Compared, Comparison, Glob, NoMemory, Texts, compare, difference, overlap};
use wax_test_kit::answer::Answer;
use wax_test_kit::rows::DataRow;

/// Adds the answer to a question about two globs or sets, or the number of the error if one can't be
/// built.
pub fn answer(
    alloc: Global,
    question: Question,
    row: &DataRow,
    made: &mut Answer,
) -> Result<(), NoMemory> {
    let first = row.input(2);
    if first.contains(' ') {
        match sets::set_of(alloc, first) {
            Ok(set) => compare_with(alloc, question, &set, row, made),
            Err(error) => sets::add_error(&error, made),
        }
    } else {
        match Glob::new(alloc, first) {
            Ok(glob) => compare_with(alloc, question, &glob, row, made),
            Err(error) => sets::add_error(&error, made),
        }
    }
}

/// Compares with the second glob or set of the row.
fn compare_with<A: Compared>(
    alloc: Global,
    question: Question,
    first: &A,
    row: &DataRow,
    made: &mut Answer,
) -> Result<(), NoMemory> {
    let second = row.input(3);
    if second.contains(' ') {
        match sets::set_of(alloc, second) {
            Ok(set) => add_found(alloc, question, first, &set, row, made),
            Err(error) => sets::add_error(&error, made),
        }
    } else {
        match Glob::new(alloc, second) {
            Ok(glob) => add_found(alloc, question, first, &glob, row, made),
            Err(error) => sets::add_error(&error, made),
        }
    }
}

/// Adds the answer to a question about two globs or sets.
fn add_found<A: Compared, B: Compared>(
    alloc: Global,
    question: Question,
    first: &A,
    second: &B,
    row: &DataRow,
    made: &mut Answer,
) -> Result<(), NoMemory> {
    let texts = match row.input(0) {
        "all" => Texts::All,
        _ => Texts::Paths,
    };
    let most_states = most_states(row, 1);
    let found = match question {
        Question::Overlap => overlap(alloc, first, second, texts, most_states)?,
        Question::Difference => difference(alloc, first, second, texts, most_states)?,
        Question::Compare => compare(alloc, first, second, texts, most_states)?,
    };
    match found {
        Comparison::Nothing => made.add("nothing"),
        Comparison::Unknown => made.add("unknown"),
        Comparison::Text(text) => {
            made.add("text ");
            made.quote(&text);
        }
    }
    Ok(())
}

/// Returns the limit of states in an input.
fn most_states(row: &DataRow, index: usize) -> usize {
    usize::try_from(row.number(index, 0)).unwrap_or(usize::MAX)
}

/// Adds the pairs of patterns of a set that match one path, each with such a path, or `none`.
pub fn add_conflicts(
    alloc: Global,
    set: &Any<'_>,
    row: &DataRow,
    made: &mut Answer,
) -> Result<(), NoMemory> {
    let conflicts = set.conflicts(alloc, most_states(row, 1))?;
    if conflicts.is_empty() {
        made.add("none");
    }
    for (place, conflict) in conflicts.iter().enumerate() {
        made.add(if place > 0 { "; " } else { "" });
        made.show(&conflict.first);
        made.add(" ");
        made.show(&conflict.second);
        made.add(" ");
        match &conflict.path {
            Some(path) => made.quote(path),
            None => made.add("unknown"),
        }
    }
    Ok(())
}

/// Adds the lines of a list that decide nothing, each with its index and the reason, or `none`. For a
/// text that is no list, adds the error.
pub fn add_idle(alloc: Global, row: &DataRow, made: &mut Answer) -> Result<(), NoMemory> {
    let list = match IgnoreList::parse(alloc, row.input(1)) {
        Ok(list) => list,
        Err(error) => return lists::add_error(&error, made),
    };
    let idle = list.idle_lines(alloc, most_states(row, 0))?;
    if idle.is_empty() {
        made.add("none");
    }
    for (place, line) in idle.iter().enumerate() {
        made.add(if place > 0 { "; " } else { "" });
        made.show(&line.index);
        add_reason(&line.reason, made);
    }
    Ok(())
}

fn add_reason(reason: &IdleReason, made: &mut Answer) {
    match reason {
        IdleReason::Covered(later) if later.is_empty() => made.add(" matches no path"),
        IdleReason::Covered(later) => {
            made.add(" covered by");
            for index in later {
                made.add(" ");
                made.show(index);
            }
        }
        IdleReason::TakesNothingBack => made.add(" takes nothing back"),
        IdleReason::Unknown => made.add(" unknown"),
    }
}
