//! The words that say what to do.

use crate::comparison::Question;

/// How the program is called.
pub const USAGE: &str = "\
usage: globs_explain [--] EXPR [PATH]
       globs_explain --dot EXPR
       globs_explain --overlap EXPR EXPR
       globs_explain --difference EXPR EXPR
       globs_explain --conflicts FILE
       globs_explain --idle FILE
       globs_explain --tidy FILE
       globs_explain --ignored FILE [PATH]..
       globs_explain --compare FILE FILE
       globs_explain --help
       globs_explain --version
";

/// What the arguments ask for.
#[derive(Clone, Copy)]
pub enum Command {
    Explain,
    Draw,
    CompareGlobs(Question),
    FindConflicts,
    FindIdle,
    Tidy,
    FindDeciding,
    CompareLists,
    ShowUsage,
    ShowVersion,
}

/// Returns what an option asks for, or `None` if there is no such option.
pub fn command_of(option: &str) -> Option<Command> {
    match option {
        "--" => Some(Command::Explain),
        "--dot" => Some(Command::Draw),
        "--overlap" => Some(Command::CompareGlobs(Question::Overlap)),
        "--difference" => Some(Command::CompareGlobs(Question::Difference)),
        "--conflicts" => Some(Command::FindConflicts),
        "--idle" => Some(Command::FindIdle),
        "--tidy" => Some(Command::Tidy),
        "--ignored" => Some(Command::FindDeciding),
        "--compare" => Some(Command::CompareLists),
        "--help" => Some(Command::ShowUsage),
        "--version" => Some(Command::ShowVersion),
        _ => None,
    }
}
