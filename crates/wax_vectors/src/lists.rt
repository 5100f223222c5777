//! Facts of ignore lists.

use std::alloc::Global;
use wax::walk::{IgnoreError, IgnoreList};
use wax::{CandidatePath, NoMemory};
use wax_test_kit::answer::Answer;
use wax_test_kit::rows::DataRow;

/// Adds whether the list ignores a path, once or twice. For a text that is no list, adds the number
/// of the error, the line, and the message.
pub fn answer(
    alloc: Global,
    is_twice: bool,
    row: &DataRow,
    made: &mut Answer,
) -> Result<(), NoMemory> {
    match IgnoreList::parse(alloc, row.input(0)) {
        Ok(mut list) if is_twice => {
            add_twice(alloc, &mut list, row.input(1), made);
            Ok(())
        }
        Ok(mut list) => add_ignored(alloc, &mut list, row.input(1), made),
        Err(error) => add_error(&error, made),
    }
}

fn add_twice(alloc: Global, list: &mut IgnoreList, path: &str, made: &mut Answer) {
    for _ in 0..2 {
        let call = add_ignored(alloc, list, path, made);
        made.end(call);
    }
}

fn add_ignored(
    alloc: Global,
    list: &mut IgnoreList,
    path: &str,
    made: &mut Answer,
) -> Result<(), NoMemory> {
    let path = CandidatePath::from(path);
    let is_ignored = list.is_ignored(alloc, &path)?;
    let is_ignored_cached = list.is_ignored_cached(alloc, &path)?;
    made.digit(is_ignored);
    if is_ignored_cached != is_ignored {
        made.add(", but not with what is kept");
    }
    Ok(())
}

/// Adds the number of the error, the line, and the message.
pub fn add_error(error: &IgnoreError, made: &mut Answer) -> Result<(), NoMemory> {
    let IgnoreError::BadLine { line, error: why } = error else {
        return Err(NoMemory);
    };
    made.show(&error.number());
    made.tab();
    made.show(line);
    made.tab();
    made.show(why);
    Ok(())
}
