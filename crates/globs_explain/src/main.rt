//! The program `globs_explain`: shows how an expression is read, what is known of it, and what it
//! captures of a path; or its error. Compares two expressions or two ignore lists, and finds the rules of
//! a file that match one path. Of an ignore list it finds the line that decides about a path, and the
//! lines that decide nothing, and writes the list without these.
#![tactic(auto)]

mod captured;
mod command;
mod comparison;
mod conflicts;
mod deciding;
mod dot;
mod facts;
mod files;
mod idle;
mod input;
mod list_comparison;
mod numbered_lines;
mod page;
mod rules;
mod tidy;
mod tokens;
mod visits;

use command::{Command, USAGE, command_of};
use comparison::Question;
use files::ListFile;
use page::Page;
use rules::RuleFile;
use std::alloc::Global;
use std::process::ExitCode;
use std::{env, io};
use wax::diagnostics::LocatedError;
use wax::token::parse;
use wax::{BuildError, Glob, NoMemory};

/// The newest version of CHANGELOG.md.
const VERSION: &str = "14.1.0";

fn main(rt: HostRuntime) -> ExitCode {
    match run(&rt) {
        Ok(status) => ExitCode::from(status),
        Err(_) => {
            let _ = eprintln!(rt; "globs_explain: no memory, or a read or write failed");
            ExitCode::FAILURE
        }
    }
}

/// Does what the arguments ask for, and returns the exit status. Only the first one may be an option,
/// which begins with `--`.
fn run(rt: &HostRuntime) -> io::Result<u8> {
    let mut words = Vec::new(rt.alloc());
    for word in env::args(rt)?.skip(1) {
        words.push(word)?;
    }
    match words.as_slice() {
        [option, operands @ ..] if option.starts_with("--") => run_option(rt, option, operands),
        operands => run_command(rt, Command::Explain, operands),
    }
}

/// Does what an option asks for, and returns the exit status.
fn run_option(rt: &HostRuntime, option: &str, operands: &[String]) -> io::Result<u8> {
    match command_of(option) {
        Some(command) => run_command(rt, command, operands),
        None => print_usage(rt),
    }
}

/// Does what a command asks for, and returns the exit status.
fn run_command(rt: &HostRuntime, command: Command, operands: &[String]) -> io::Result<u8> {
    let alloc = rt.alloc();
    let mut page = Page::new(alloc);
    let status = match (command, operands) {
        (Command::Explain, [expression]) => explain(alloc, expression, None, &mut page),
        (Command::Explain, [expression, path]) => explain(alloc, expression, Some(path), &mut page),
        (Command::Draw, [expression]) => draw(alloc, expression, &mut page),
        (Command::CompareGlobs(question), [first, second]) => {
            compare_globs(alloc, question, first, second, &mut page)
        }
        (Command::FindConflicts, [file]) => find_conflicts(rt, file, &mut page)?,
        (Command::FindIdle, [file]) => find_idle(rt, file, &mut page)?,
        (Command::Tidy, [file]) => return tidy::print_tidied(rt, file),
        (Command::FindDeciding, [file, paths @ ..]) => return deciding::print_lines(
            rt, file, paths,
        ),
        (Command::CompareLists, [first, second]) => compare_lists(rt, first, second, &mut page)?,
        (Command::ShowUsage, []) => add_usage(&mut page),
        (Command::ShowVersion, []) => add_version(&mut page),
        _ => return print_usage(rt),
    };
    page.print(rt, status)
}

/// Prints the usage to standard error. Returns the status.
fn print_usage(rt: &HostRuntime) -> io::Result<u8> {
    eprint!(rt; "{USAGE}")?;
    Ok(2)
}

/// Adds the usage. Returns the status.
fn add_usage(page: &mut Page) -> u8 {
    page.add(USAGE);
    0
}

/// Adds the name of the program and its version. Returns the status.
fn add_version(page: &mut Page) -> u8 {
    page.add("globs_explain ");
    page.add(VERSION);
    page.add("\n");
    0
}

/// Adds the tokens of the expression, what is known of it, and a match of the path if there is one.
/// Returns the status.
fn explain(alloc: Global, expression: &str, path: Option<&str>, page: &mut Page) -> u8 {
    match Glob::new(alloc, expression) {
        Ok(glob) => {
            let mut matched = Page::new(alloc);
            let looked = look(alloc, &glob, path, page, &mut matched);
            page.lose_unless(looked);
            facts::add_parts(alloc, glob, page);
            page.add_page(&matched);
            0
        }
        Err(error) => refuse(alloc, expression, &error, page),
    }
}

/// Adds the expression with its tokens and facts to the first page, and the path to the second.
fn look(
    alloc: Global,
    glob: &Glob<'_>,
    path: Option<&str>,
    page: &mut Page,
    matched: &mut Page,
) -> Result<(), NoMemory> {
    let expression = glob.expression();
    page.whole(expression);
    page.add("\n");
    read(alloc, expression, page);
    facts::add_facts(alloc, glob, page)?;
    match path {
        Some(path) => captured::add_match(alloc, glob, path, matched),
        None => Ok(()),
    }
}

/// Adds the tokens of the expression.
fn read(alloc: Global, expression: &str, page: &mut Page) {
    match parse(alloc, expression) {
        Ok(tokens) => {
            let added = tokens::add_tree(alloc, expression, tokens.as_token(), page);
            page.lose_unless(added);
        }
        Err(_) => page.lose(),
    }
}

/// Adds the tree of the tokens for Graphviz, of any expression that parses. Returns the status.
fn draw(alloc: Global, expression: &str, page: &mut Page) -> u8 {
    match parse(alloc, expression) {
        Ok(tokens) => {
            let added = dot::add_graph(alloc, expression, tokens.as_token(), page);
            page.lose_unless(added);
            0
        }
        Err(refusal) => refuse(alloc, expression, &BuildError::from(refusal), page),
    }
}

/// Adds what is found of two expressions. Returns the status.
fn compare_globs(
    alloc: Global,
    question: Question,
    first: &str,
    second: &str,
    page: &mut Page,
) -> u8 {
    let first = match Glob::new(alloc, first) {
        Ok(glob) => glob,
        Err(error) => return refuse(alloc, first, &error, page),
    };
    let second = match Glob::new(alloc, second) {
        Ok(glob) => glob,
        Err(error) => return refuse(alloc, second, &error, page),
    };
    let added = comparison::add_answer(alloc, question, &first, &second, page);
    page.lose_unless(added);
    0
}

/// Adds each two rules in a file that both match some path. Returns the status.
fn find_conflicts(rt: &HostRuntime, file: &str, page: &mut Page) -> io::Result<u8> {
    let Some(file) = RuleFile::read(rt, file)? else {
        return Ok(1);
    };
    let added = conflicts::add_conflicts(rt.alloc(), &file, page);
    page.lose_unless(added);
    Ok(0)
}

/// Adds the lines of the ignore list in a file that decide nothing. Returns the status.
fn find_idle(rt: &HostRuntime, file: &str, page: &mut Page) -> io::Result<u8> {
    let Some(file) = ListFile::read(rt, file)? else {
        return Ok(1);
    };
    let added = idle::add_idle(rt.alloc(), &file, page);
    page.lose_unless(added);
    Ok(0)
}

/// Adds what is found of the ignore lists in two files. Returns the status.
fn compare_lists(rt: &HostRuntime, first: &str, second: &str, page: &mut Page) -> io::Result<u8> {
    let Some(first) = ListFile::read(rt, first)? else {
        return Ok(1);
    };
    let Some(second) = ListFile::read(rt, second)? else {
        return Ok(1);
    };
    let added = list_comparison::add_answer(rt.alloc(), &first, &second, page);
    page.lose_unless(added);
    Ok(0)
}

/// Adds the error of the expression, with a picture. Returns the status.
fn refuse(alloc: Global, expression: &str, error: &BuildError, page: &mut Page) -> u8 {
    page.show(error);
    page.add("\n");
    if error.locations().is_some() {
        match error.picture(alloc, expression) {
            Ok(picture) => page.add(&picture),
            Err(_) => page.lose(),
        }
    }
    1
}
