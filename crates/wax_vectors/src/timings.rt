//! Times matches, captures, builds and walks. Prints a line for each expression or folder, with
//! tabs between its fields.
//!
//! `time match EXPR..` matches each line of standard input, and `time captures EXPR..` with
//! captures. `time matcher EXPR..` does the former by one matcher, and `time captures-by-matcher
//! EXPR..` captures only from lines that one matcher accepts. They print nanoseconds and visits for
//! each line (a matcher counts no visits), and how many lines match.
//!
//! `time new EXPR..` builds each glob many times. It prints nanoseconds for each build, and how
//! many succeeded.
//!
//! `time build -` builds one glob of all of standard input, without white space at its end, and
//! calls `depth`. It prints how the build ended, and milliseconds.
//!
//! `time walk FOLDER..` walks folders of the real system. It prints entries, errors and
//! milliseconds.
//!
//! `time ignored -` reads an ignore list from standard input, up to an empty line, and asks it about
//! each line after that. It prints nanoseconds for each line by `is_ignored` and by
//! `is_ignored_cached`, and how many lines each of them ignores.
//!
//! `time set -` reads the patterns of a set in the same way, and asks which of them match each line.
//! It prints nanoseconds for each line by `is_match` of a matcher, by its `matches_into` and by
//! `Any::matches`, and how many lines match by each of them.

use std::alloc::{AllocError, Global};
use std::time::Instant;
use std::{env, io};
use wax::walk::{Folders, IgnoreList, PathExt};
use wax::{Any, BuildError, CandidatePath, Glob, NoMemory, Program, any};

/// How often `time new` builds each glob.
const BUILDS: u64 = 1_000;

/// How many lines matched, and the visits of all lines.
#[derive(Drop)]
struct Matches {
    matched: u64,
    visits: u128,
}

/// What `time_lines` times of an expression.
#[derive(Clone, Copy)]
enum Timed {
    Matches,
    Matcher,
    Captures,
    CapturesByMatcher,
}

/// Times what the arguments after `time` say.
///
/// # Errors
///
/// Returns an error if standard input can't be read, standard output can't be written, or
/// allocation fails.
pub fn time_words(rt: HostRuntime) -> io::Result<()> {
    let given = io::read_to_string(rt.alloc(), rt.stdin())?;
    let mut words = env::args(&rt)?.skip(2);
    let Some(job) = words.next() else {
        return Ok(());
    };
    for word in words {
        time_word(rt, &job, &word, &given)?;
    }
    Ok(())
}

fn time_word(rt: HostRuntime, job: &str, word: &str, given: &str) -> io::Result<()> {
    match job {
        "match" => time_lines(rt, Timed::Matches, word, given),
        "matcher" => time_lines(rt, Timed::Matcher, word, given),
        "captures" => time_lines(rt, Timed::Captures, word, given),
        "captures-by-matcher" => time_lines(rt, Timed::CapturesByMatcher, word, given),
        "new" => time_new(rt, word),
        "build" => time_build(rt, given.trim_end()),
        "ignored" => time_list(rt, given),
        "set" => time_set(rt, given),
        _ => time_walk(rt, word),
    }
}

fn time_lines(rt: HostRuntime, timed: Timed, expression: &str, given: &str) -> io::Result<()> {
    let lines = lines_of(rt.alloc(), given)?;
    match Glob::new(rt.alloc(), expression) {
        Ok(glob) => time_glob(rt, timed, &glob, &lines),
        Err(_) => println!(rt; "{expression}\trefused"),
    }
}

fn time_glob(rt: HostRuntime, timed: Timed, glob: &Glob<'_>, lines: &[&str]) -> io::Result<()> {
    let expression = glob.expression();
    let start = Instant::now(&rt)?;
    let answer = match timed {
        Timed::Matches => match_lines(rt.alloc(), glob, lines),
        Timed::Matcher => match_by_matcher(rt.alloc(), glob, lines),
        Timed::Captures => capture_lines(rt.alloc(), glob, lines),
        Timed::CapturesByMatcher => capture_by_matcher(rt.alloc(), glob, lines),
    };
    let time = start.elapsed(&rt)?;
    let Ok(matches) = answer else {
        return println!(rt; "{expression}\tno memory");
    };
    let count = (lines.len() as u128).max(1);
    let (nanoseconds, visits) = (time.as_nanos() / count, matches.visits / count);
    println!(rt;
        "{expression}\t{nanoseconds}\t{visits}\t{}",
        matches.matched
    )
}

fn lines_of(alloc: Global, text: &str) -> Result<Vec<&str>, AllocError> {
    text.lines().collect(alloc)
}

/// Matches each line.
fn match_lines(alloc: Global, glob: &Glob<'_>, lines: &[&str]) -> Result<Matches, NoMemory> {
    let mut matched: u64 = 0;
    let mut visits: u128 = 0;
    for line in lines {
        let answer = glob.is_match_counted(alloc, &CandidatePath::from(*line))?;
        matched = matched.saturating_add(answer.0 as u64);
        visits = visits.saturating_add(answer.1);
    }
    Ok(Matches { matched, visits })
}

/// Matches each line by one matcher.
fn match_by_matcher(alloc: Global, glob: &Glob<'_>, lines: &[&str]) -> Result<Matches, NoMemory> {
    let mut matched: u64 = 0;
    let mut matcher = glob.matcher(alloc)?;
    for line in lines {
        let answer = matcher.is_match(&CandidatePath::from(*line))?;
        matched = matched.saturating_add(answer as u64);
    }
    Ok(Matches { matched, visits: 0 })
}

/// Matches each line with captures.
fn capture_lines(alloc: Global, glob: &Glob<'_>, lines: &[&str]) -> Result<Matches, NoMemory> {
    let mut matched: u64 = 0;
    let mut visits: u128 = 0;
    for line in lines {
        let path = CandidatePath::from(*line);
        let answer = glob.matched_counted(alloc, &path)?;
        matched = matched.saturating_add(answer.0.is_some() as u64);
        visits = visits.saturating_add(answer.1);
    }
    Ok(Matches { matched, visits })
}

/// Matches each line by one matcher, and those that match with captures.
fn capture_by_matcher(alloc: Global, glob: &Glob<'_>, lines: &[&str]) -> Result<Matches, NoMemory> {
    let mut matched: u64 = 0;
    let mut matcher = glob.matcher(alloc)?;
    for line in lines {
        let path = CandidatePath::from(*line);
        if matcher.is_match(&path)? {
            let answer = glob.matched(alloc, &path)?;
            matched = matched.saturating_add(answer.is_some() as u64);
        }
    }
    Ok(Matches { matched, visits: 0 })
}

fn time_new(rt: HostRuntime, expression: &str) -> io::Result<()> {
    let start = Instant::now(&rt)?;
    let count = built(rt.alloc(), expression);
    let nanoseconds = start.elapsed(&rt)?.as_nanos() / (BUILDS as u128);
    println!(rt; "{expression}\t{nanoseconds}\t{count}")
}

/// Builds the glob `BUILDS` times. Returns how many builds succeeded.
fn built(alloc: Global, expression: &str) -> u64 {
    let mut count: u64 = 0;
    for _ in 0..BUILDS {
        if Glob::new(alloc, expression).is_ok() {
            count = count.saturating_add(1);
        }
    }
    count
}

fn time_build(rt: HostRuntime, expression: &str) -> io::Result<()> {
    let start = Instant::now(&rt)?;
    let came_to = build(rt.alloc(), expression);
    println!(rt; "{came_to}\t{}", start.elapsed(&rt)?.as_millis())
}

/// Builds the glob and calls `depth`. Returns how the build ended.
fn build(alloc: Global, expression: &str) -> &'static str {
    match Glob::new(alloc, expression) {
        Ok(glob) => {
            let _depth = glob.depth();
            "built"
        }
        Err(_) => "refused",
    }
}

fn time_walk(rt: HostRuntime, start: &str) -> io::Result<()> {
    let begun = Instant::now(&rt)?;
    let (entries, errors) = walked(rt, start);
    let milliseconds = begun.elapsed(&rt)?.as_millis();
    println!(rt; "{start}\t{entries}\t{errors}\t{milliseconds}")
}

/// Returns how many entries and errors the walk from a path yields.
fn walked(rt: HostRuntime, start: &str) -> (u64, u64) {
    let (mut entries, mut errors) = (0u64, 0u64);
    for item in start.walk(rt.alloc(), Folders::new(rt)) {
        match item {
            Ok(_) => entries = entries.saturating_add(1),
            Err(_) => errors = errors.saturating_add(1),
        }
    }
    (entries, errors)
}

fn time_list(rt: HostRuntime, given: &str) -> io::Result<()> {
    let alloc = rt.alloc();
    let Some((text, paths)) = given.split_once("\n\n") else {
        return println!(rt; "no empty line");
    };
    let lines = lines_of(alloc, paths)?;
    let count = (lines.len() as u128).max(1);
    let Ok(mut list) = IgnoreList::parse(alloc, text) else {
        return println!(rt; "refused");
    };
    let start = Instant::now(&rt)?;
    let ignored = count_ignored(alloc, &list, &lines);
    let single = start.elapsed(&rt)?.as_nanos() / count;
    let start = Instant::now(&rt)?;
    let ignored_cached = count_ignored_cached(alloc, &mut list, &lines);
    let cached = start.elapsed(&rt)?.as_nanos() / count;
    println!(rt; "{single}\t{cached}\t{ignored:?}\t{ignored_cached:?}")
}

/// Returns how many lines the list ignores.
fn count_ignored(alloc: Global, list: &IgnoreList, lines: &[&str]) -> Result<u64, NoMemory> {
    let mut count: u64 = 0;
    for line in lines {
        let answer = list.is_ignored(alloc, &CandidatePath::from(*line))?;
        count = count.saturating_add(answer as u64);
    }
    Ok(count)
}

/// Returns what `count_ignored` does, with what the list keeps.
fn count_ignored_cached(
    alloc: Global,
    list: &mut IgnoreList,
    lines: &[&str],
) -> Result<u64, NoMemory> {
    let mut count: u64 = 0;
    for line in lines {
        let answer = list.is_ignored_cached(alloc, &CandidatePath::from(*line))?;
        count = count.saturating_add(answer as u64);
    }
    Ok(count)
}

fn time_set(rt: HostRuntime, given: &str) -> io::Result<()> {
    let alloc = rt.alloc();
    let Some((text, paths)) = given.split_once("\n\n") else {
        return println!(rt; "no empty line");
    };
    let lines = lines_of(alloc, paths)?;
    let count = (lines.len() as u128).max(1);
    let Ok(set) = set_of(alloc, text) else {
        return println!(rt; "refused");
    };
    let start = Instant::now(&rt)?;
    let matched = count_matched(alloc, &set, &lines);
    let matcher = start.elapsed(&rt)?.as_nanos() / count;
    let start = Instant::now(&rt)?;
    let listed = count_listed(alloc, &set, &lines);
    let lists = start.elapsed(&rt)?.as_nanos() / count;
    let start = Instant::now(&rt)?;
    let listed_once = count_listed_once(alloc, &set, &lines);
    let once = start.elapsed(&rt)?.as_nanos() / count;
    println!(rt; "{matcher}\t{lists}\t{once}\t{matched:?}\t{listed:?}\t{listed_once:?}")
}

/// Builds the set of the patterns, one on each line.
fn set_of(alloc: Global, patterns: &str) -> Result<Any<'static>, BuildError> {
    match lines_of(alloc, patterns) {
        Ok(lines) => any(alloc, lines),
        Err(_) => Err(BuildError::Memory),
    }
}

/// Returns how many lines the set matches, by one matcher.
fn count_matched(alloc: Global, set: &Any<'_>, lines: &[&str]) -> Result<u64, NoMemory> {
    let mut count: u64 = 0;
    let mut matcher = set.matcher(alloc)?;
    for line in lines {
        let answer = matcher.is_match(&CandidatePath::from(*line))?;
        count = count.saturating_add(answer as u64);
    }
    Ok(count)
}

/// Returns how many lines some pattern matches, by the patterns that one matcher lists.
fn count_listed(alloc: Global, set: &Any<'_>, lines: &[&str]) -> Result<u64, NoMemory> {
    let mut count: u64 = 0;
    let mut matcher = set.matcher(alloc)?;
    let mut indexes = Vec::new(alloc);
    for line in lines {
        matcher.matches_into(&CandidatePath::from(*line), &mut indexes)?;
        count = count.saturating_add(!indexes.is_empty() as u64);
    }
    Ok(count)
}

/// Returns the same without a matcher.
fn count_listed_once(alloc: Global, set: &Any<'_>, lines: &[&str]) -> Result<u64, NoMemory> {
    let mut count: u64 = 0;
    for line in lines {
        let indexes = set.matches(alloc, &CandidatePath::from(*line))?;
        count = count.saturating_add(!indexes.is_empty() as u64);
    }
    Ok(count)
}
