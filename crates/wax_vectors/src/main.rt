//! Shows facts of globs, sets and ignore lists. Each argument is a file of rows, whose answers are
//! computed and compared with those in the file. Each line of standard input is a row without its
//! answer, and is printed with it. If the first argument is `time`, the others say what to time.
#![tactic(auto)]

mod belows;
mod comparisons;
mod copies;
mod globs;
mod kinds;
mod lines;
mod lists;
mod memoryless;
mod parts;
mod refusals;
mod sets;
mod timings;

use crate::kinds::Kind;
use std::{env, io};
use wax_test_kit::answer::Answer;
use wax_test_kit::rows::{compare_file, show_rows};

fn main(rt: HostRuntime) -> io::Result<()> {
    if is_timing(&rt)? {
        return timings::time_words(rt);
    }
    let mut made = Answer::new(rt.alloc())?;
    for name in env::args(&rt)?.skip(1) {
        compare_file::<Kind>(&rt, &name, &mut made)?;
    }
    show_rows::<Kind>(&rt, &mut made)
}

/// Returns whether the first argument is `time`.
fn is_timing(rt: &HostRuntime) -> io::Result<bool> {
    match env::args(rt)?.nth(1) {
        Some(word) => Ok(word.as_str() == "time"),
        None => Ok(false),
    }
}
